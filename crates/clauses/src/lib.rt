// The clause kind of rule: a table of clauses behind the rule bank's interface, and clauses as two sets of options, as a search learns them.
#![tactic(auto)]

mod clause;
pub mod left;
mod limits;
pub mod literal;
mod mark;
pub mod opening;
mod rules;
pub mod scan;
pub mod set_clause;
pub mod table;
pub mod value_sets;
