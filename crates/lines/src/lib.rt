// Parting a text into its lines, one at a time and without copying.
#![tactic(auto)]

pub mod iter;
pub mod line;
pub mod place;
