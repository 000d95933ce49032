// Diagrams as a rule bank: exact marks in two passes over the rows, variants, and the walk of one build.
#![tactic(auto)]

mod allowed;
mod descent;
mod found;
mod live_nodes;
mod marking;
pub mod rules;
mod value_weights;
pub mod variants;
pub mod walk;
