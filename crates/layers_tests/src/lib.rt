// Tests of the layers, over a small bank of their own.
#![tactic(auto)]

#[cfg(test)]
mod tests;
mod wants;
