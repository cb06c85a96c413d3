// The plain transforms on slices of n = 2h residues: each slot by its value, and back by sums over the slots.
#![tactic(auto)]

pub mod engine;
mod reverse;
mod transform;

pub use engine::Engine;
