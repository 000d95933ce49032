// What a question about one option answers.
use search::verdict::Counted;

// All builds that fulfil the order give the option this value; two of them differ there; there is none; or the budget is spent.
#[derive(Clone, Copy, PartialEq, Eq, Debug, Drop)]
pub enum Force {
    Only(bool),
    Open,
    NoBuild,
    Spent,
}

// The answer, and the steps of all its searches.
pub type Forced = Counted<Force>;
