// Two layers over rule banks, which are banks again: a pair of banks, and a bank moved up by some options.
// They hold the banks below by value and need no memory of their own, so that they nest to any depth.
#![tactic(auto)]

pub mod pair;
mod part;
pub mod shift;
