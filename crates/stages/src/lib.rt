// What making, sealing and opening share, on slices of the right lengths. Nothing is refused here.
#![tactic(auto)]

pub mod images;
