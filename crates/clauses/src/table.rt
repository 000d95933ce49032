// The clause bank's table. What every table keeps stands in the type, so no bank in hand has a clause that breaks the limits.
ghost use Rattle.std.specs.Prelude.{◌≡◌, ◌≤◌, true, length};
ghost use Rattle.clauses.specs.Table.{rules_of, all_within};

use crate::clause::Clause;
use arrayvec::ArrayVec;

// The clauses are the bank's rules, over `width` options.
#[derive(Drop)]
pub struct Clauses {
    pub(crate) width: usize,
    pub(crate) clauses: ArrayVec<Clause<32>, 512>,
    ghost sized: { (1 ≤ width) × (width ≤ 128) × (length (rules_of clauses) ≤ 512) },
    ghost inside: { all_within width (rules_of clauses) ≡ true },
}
