// Sweeps over diagrams: one column of node results serves every semiring, over memory handed in.
#![tactic(auto)]

pub mod column;
pub mod node;
pub mod root;
pub mod semiring;
pub mod sweep;
pub mod weights;
