// What a search answers, and how many steps an answer took.

// The trail is a build; there is none; or the budget is spent and one more step is needed.
#[derive(Clone, Copy, PartialEq, Eq, Debug, Drop)]
pub enum Verdict {
    Build,
    NoBuild,
    Spent,
}

// An answer with the steps of all searches that it took.
#[derive(Clone, Copy, PartialEq, Eq, Debug, Drop)]
pub struct Counted<T> {
    pub answer: T,
    pub steps: u64,
}
