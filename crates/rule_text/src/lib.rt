// Reading a rule text into the three tables of rules, line by line.
#![tactic(auto)]

pub mod frame;
mod kind;
mod rule_line;
pub mod rules_text;
pub mod tables;
