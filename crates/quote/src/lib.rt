// The calls of the dealers' program: a quote for an order given as two texts, and the line at fault where there is one.
// One reading of the texts decides both.
#![tactic(auto)]

mod answer;
pub mod faulty;
pub mod faulty_line;
pub mod faulty_place;
pub mod quote;
mod read;
pub mod request;
mod tables;
