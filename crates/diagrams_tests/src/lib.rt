// Tests of the diagram bank: opening whole tables, and filling one row by row.
#![tactic(auto)]

#[cfg(test)]
mod adding_tests;
#[cfg(test)]
mod helpers;
#[cfg(test)]
mod opening_tests;
