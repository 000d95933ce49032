// Writing the listing: the lines of a build, or the one line that says why there is none.
#![tactic(auto)]

mod columns;
pub mod write;
