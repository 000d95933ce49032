// Tests of the diagram rules: marks, variants, sweeps, the walk, and what each call refuses.
#![tactic(auto)]

#[cfg(test)]
mod helpers;
#[cfg(test)]
mod marking_tests;
#[cfg(test)]
mod sweep_tests;
#[cfg(test)]
mod variants_tests;
#[cfg(test)]
mod walk_tests;
