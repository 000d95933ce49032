// Reading a pick text into a table of picks, line by line.
#![tactic(auto)]

mod pick_line;
pub mod picks;
mod picks_text;
