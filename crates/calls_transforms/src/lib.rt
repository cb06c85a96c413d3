// The two calls that take one list to another: the tests in the order of the numbers, then the work. Neither asks anything of its caller.
// They differ in the engine's method: a function over that would be no shorter.
#![tactic(auto)]

pub mod reverse;
mod tests;
pub mod transform;
