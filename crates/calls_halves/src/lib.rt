// The public calls that hand back the halves of a private key, as parts of it. Neither asks anything of its caller.
#![tactic(auto)]

pub mod f_half;
pub mod h_half;
mod halves;
