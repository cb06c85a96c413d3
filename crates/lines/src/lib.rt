// The lines of ringline: what one of its input lines says, and its printed lines.
#![tactic(auto)]

pub mod input;
pub mod output;
