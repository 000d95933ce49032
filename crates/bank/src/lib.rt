// The rule bank: the one interface behind which diagrams, clauses and groups stand, what it owes, and what it refuses.
#![tactic(auto)]

pub mod asked;
mod borrowed;
pub mod check;
pub mod refusal;
pub mod rule_bank;
pub mod table_fault;
