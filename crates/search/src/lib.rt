// The search over any rule bank: it decides, implies and learns until the trail is a build, there is none, or the budget is spent.
#![tactic(auto)]

mod analyze;
mod backjump;
mod propagate;
mod reason;
pub mod search;
mod step;
mod thin;
pub mod verdict;
