// Cardinality groups: at least so many and at most so many of some different options are taken.
#![tactic(auto)]

mod faults;
pub mod group;
mod marking;
mod opening;
mod options;
pub mod rules;
mod storing;
pub mod table;
pub mod text;
