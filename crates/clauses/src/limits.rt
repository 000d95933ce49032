// The limits of a clause table, and the first clause that breaks one.
ghost use Rattle.std.specs.Prelude.{◌≡◌, [], not, map, length, slice_index_or};
ghost use Rattle.bank.specs.Numbers.{located};
ghost use Rattle.bank.specs.Checks.{first};
ghost use Rattle.clauses.specs.Literals.{within as within_of};
ghost use Rattle.clauses.specs.Opening.{too_many as too_many_of, open_cause};

use bank::check::{check_width, refused_at};
use bank::table_fault::{TableCause, TableFault};

// Whether there is no place for the item, or no place in it for so many literals.
// Groups have a `too_many`, searches for it and a `room_for` of their own: the limits are this kind's own, and one function with the limits as parameters would be no shorter than the test.
pub fn too_many(item: usize, literals: usize) -> bool
    ensures { result ≡ too_many_of item literals }
{
    item >= 512 || literals > 32
}

// Whether each literal is of an option below the width.
// Groups have a `within` of their own: their numbers are not halved, and a shared one would be no plainer, since it takes a closure that is all of it.
pub fn within(literals: &[u32], width: usize) -> bool
    ensures { result ≡ within_of width literals.now }
{
    literals
        .iter()
        .all(|literal| ((*literal / 2) as usize) < width)
}

// The first item that has no place.
fn first_too_many(clauses: &[&[u32]]) -> Option<usize>
    ensures { let cs = map (λ x. x.now) clauses.now in result ≡ first (λ i. too_many_of i (length (slice_index_or cs i []))) (length cs) }
{
    clauses
        .iter()
        .enumerate()
        .position(|(i, literals)| too_many(i, literals.len()))
}

// The first item with a literal of an option at or above the width.
fn first_outside(clauses: &[&[u32]], width: usize) -> Option<usize>
    ensures { let cs = map (λ x. x.now) clauses.now in result ≡ first (λ i. not (within_of width (slice_index_or cs i []))) (length cs) }
{
    clauses.iter().position(|literals| !within(literals, width))
}

// Whether these clauses over `width` options may be opened, and if not, why.
#[tactic(auto, unfolding(crate::specs::Opening::open_cause, bank::specs::Checks::and_then))]
pub fn check_clauses(width: usize, clauses: &[&[u32]]) -> Result<(), TableFault>
    ensures { located result ≡ open_cause width (map (λ x. x.now) clauses.now) }
{
    check_width(width)?;
    refused_at(TableCause::TooMany, first_too_many(clauses))?;
    refused_at(TableCause::OptionTooLarge, first_outside(clauses, width))
}
