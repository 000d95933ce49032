// What a values table leaves of a clause.
use crate::literal::Literal;

// Nothing: each literal is false. One: this literal is open and the others are false. Free: the clause claims no option's value.
// Three cases with names: an `Option<Option<Literal>>` has the same shape and says less.
#[derive(Clone, Copy, PartialEq, Eq, Debug, Drop)]
pub enum Left {
    Nothing,
    One(Literal),
    Free,
}
