// The weights of the options, and a table together with weights that reach to its width.
ghost use Rattle.std.specs.Prelude.{◌≤◌, length};

use diagrams::table::Diagrams;

// What each option weighs at 0 and at 1. Two slices and not one of pairs: a caller may hand in two lengths, and a short one is refused.
#[derive(Clone, Copy)]
pub struct Weights<'a, S> {
    pub low: &'a [S],
    pub high: &'a [S],
}

// A table with weights for each of its options.
#[derive(Drop)]
pub struct Weighed<'t, 'a, S> {
    pub bank: &'t Diagrams<'a>,
    pub weights: &'t Weights<'t, S>,
    pub ghost wide: { (bank.now.width ≤ length weights.now.low.now) × (bank.now.width ≤ length weights.now.high.now) },
}
