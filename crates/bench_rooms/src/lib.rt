// The rooms that the bench lends to the calls, and what it prints of them.
#![tactic(auto)]

pub mod room;
pub mod show;
