// Diagrams: rows in lent memory, roots, and the lawful table of both, which is opened whole or filled row by row.
#![tactic(auto)]

mod adding;
mod check;
mod opening;
mod reading;
pub mod row;
pub mod table;
