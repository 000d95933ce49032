// What groups are refused for: the tests of one group, and the searches for the first group that has a cause.
ghost use Rattle.std.specs.Prelude.{◌≡◌, ℕ, map, length};
ghost use Rattle.std.specs.List.{position, enumerate_from};
ghost use Rattle.bank.specs.Numbers.{located};
ghost use Rattle.groups.specs.declared.text.GroupText.{GroupText};
ghost use Rattle.groups.specs.Text.{told};
ghost use Rattle.groups.specs.Faults.{too_many as too_many_of, option_bad, bounds_bad, twice_bad, open_cause};

use crate::options::{all_different, within};
use crate::text::GroupText;
use bank::check::{check_width, refused_at};
use bank::table_fault::{TableCause, TableFault};

// Whether no place is left for a group, or no place in it for so many options.
// Clauses have a `too_many`, searches for it and a `room_for` of their own: the limits are this kind's own, and one function with the limits as parameters would be no shorter than the test.
pub(crate) fn too_many(place: usize, options: usize) -> bool
    ensures { result ≡ too_many_of place options }
{
    place >= 64 || options > 32
}

// Whether the bounds are out of order, or past the number of options.
pub(crate) fn bounds_fail(group: &GroupText<'_>) -> bool
    ensures { result ≡ bounds_bad (told group.now) }
{
    !(group.lo <= group.hi && group.hi as usize <= group.options.len())
}

// The first group that has no place.
fn first_too_many(groups: &[GroupText<'_>]) -> Option<usize>
    ensures { result ≡ position (λ (x : ℕ × GroupText). too_many_of x.0 (length x.1.options.now)) (enumerate_from 0 groups.now) }
{
    groups
        .iter()
        .enumerate()
        .position(|(i, g)| too_many(i, g.options.len()))
}

// The first group with an option at or above the width.
fn first_outside(width: usize, groups: &[GroupText<'_>]) -> Option<usize>
    ensures { result ≡ position (λ g. option_bad width (told g)) groups.now }
{
    groups.iter().position(|g| !within(g.options, width))
}

// The first group whose bounds fail.
fn first_unbounded(groups: &[GroupText<'_>]) -> Option<usize>
    ensures { result ≡ position (λ g. bounds_bad (told g)) groups.now }
{
    groups.iter().position(bounds_fail)
}

// The first group in which an option stands twice.
fn first_twice(groups: &[GroupText<'_>]) -> Option<usize>
    ensures { result ≡ position (λ g. twice_bad (told g)) groups.now }
{
    groups.iter().position(|g| !all_different(g.options))
}

// Refuses a whole table: each cause is looked for in all groups before the next cause.
#[tactic(auto, using(crate::proofs::Places::open_found), unfolding(bank::specs::Checks::and_then))]
pub(crate) fn check_groups(width: usize, groups: &[GroupText<'_>]) -> Result<(), TableFault>
    ensures { located result ≡ open_cause width (map told groups.now) }
{
    check_width(width)?;
    refused_at(TableCause::TooMany, first_too_many(groups))?;
    refused_at(TableCause::OptionTooLarge, first_outside(width, groups))?;
    refused_at(TableCause::GroupBounds, first_unbounded(groups))?;
    refused_at(TableCause::OptionTwice, first_twice(groups))
}
