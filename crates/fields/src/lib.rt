// Fields of six columns, the only way in which numbers stand in the texts and in the listing.
#![tactic(auto)]

pub mod no_field;
pub mod read;
pub mod write;

// The columns of a field.
pub const COLUMNS: usize = 6;

// Numbers below this have six digits at most.
pub const SEVEN_DIGITS: u32 = 1000000;
