// The trail of a search and its store of learnt clauses, with the changes that single steps make to them.
#![tactic(auto)]

mod backtrack;
mod decide;
pub mod entry;
mod imply;
pub mod learnt;
mod numbers;
pub mod trail;
