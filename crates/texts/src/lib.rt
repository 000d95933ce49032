// What the readers of both texts share: their faults, the fields of a line, and where a line stands.
#![tactic(auto)]

pub mod faults;
pub mod line_fields;
pub mod line_place;
