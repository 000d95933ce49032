// What a table is refused for: one test for each cause of a row, and one search for each cause, which finds the first row at fault.
ghost use Rattle.std.specs.Prelude.{◌≡◌, ℕ, ◌+◌, ◌^◌, ◌<◌, ◌≤◌, length, OnOk, slice_index};
ghost use Rattle.std.specs.List.{position, enumerate_from};
ghost use Rattle.bank.specs.Numbers.{located};
ghost use Rattle.diagrams.specs.Rows.{Lawful};
ghost use Rattle.diagrams.specs.Causes.{option_bad, arrow_bad, child_bad, root_bad, sizes_cause, rows_cause, open_cause};

use crate::row::{Row, option_of};
use bank::check::{check_width, refused_at};
use bank::table_fault::{TableCause, TableFault};

// A table as a caller hands it in: it may break any rule.
#[derive(Clone, Copy, Drop)]
pub(crate) struct Unchecked<'a> {
    pub(crate) width: usize,
    pub(crate) rows: &'a [Row],
    pub(crate) roots: &'a [u32],
}

// Whether an arrow of the row `r` does not lead to a smaller node.
pub(crate) fn arrow_fails(r: usize, row: Row) -> bool
    requires { r + 2 < 2 ^ 64 }
    ensures { result ≡ arrow_bad r row }
{
    r + 2 <= row.low as usize || r + 2 <= row.high as usize
}

// Whether a child of the row has an option that is not greater.
pub(crate) fn child_fails(width: usize, rows: &[Row], row: Row) -> bool
    ensures { result ≡ child_bad width rows.now row }
{
    let option = row.option as usize;
    option_of(width, rows, row.low as usize) <= option
        || option_of(width, rows, row.high as usize) <= option
}

impl<'a> Unchecked<'a> {
    // The first row with an option at or above the width.
    fn first_option(&self) -> Option<usize>
        ensures { result ≡ position (option_bad self.now.width) self.now.rows.now }
    {
        self.rows
            .iter()
            .position(|row| self.width <= row.option as usize)
    }

    // The first row with an arrow that does not lead to a smaller node.
    fn first_arrow(&self) -> Option<usize>
        ensures { result ≡ position (λ x. arrow_bad x.0 x.1) (enumerate_from 0 self.now.rows.now) }
    {
        self.rows
            .iter()
            .enumerate()
            .position(|(r, row)| arrow_fails(r, *row))
    }

    // The first row with a child whose option is not greater.
    fn first_child(&self) -> Option<usize>
        ensures { result ≡ position (child_bad self.now.width self.now.rows.now) self.now.rows.now }
    {
        self.rows
            .iter()
            .position(|row| child_fails(self.width, self.rows, *row))
    }

    // The first root that is no node.
    fn first_root(&self) -> Option<usize>
        ensures { result ≡ position (root_bad (length self.now.rows.now)) self.now.roots.now }
    {
        let nodes = self.rows.len() + 2;
        self.roots.iter().position(|root| nodes <= *root as usize)
    }

    // Refuses a width or a number of rows or roots that no table has.
    #[tactic(auto, unfolding(crate::specs::Causes::sizes_cause, bank::specs::Checks::and_then, bank::specs::Checks::refused_at))]
    fn check_sizes(&self, room: usize) -> Result<(), TableFault>
        ensures value { located result ≡ sizes_cause room self.now.width (length self.now.rows.now) (length self.now.roots.now) }
        ensures wide { OnOk result ((1 ≤ self.now.width) × (self.now.width ≤ 128)) }
        ensures few { OnOk result ((length self.now.rows.now ≤ room) × (length self.now.roots.now ≤ 128)) }
    {
        check_width(self.width)?;
        refused_at(
            TableCause::TooMany,
            (self.rows.len() > room).then_some(room),
        )?;
        refused_at(TableCause::TooMany, (self.roots.len() > 128).then_some(128))
    }

    // Refuses a bad row: each cause is looked for in all rows before the next cause.
    #[tactic(auto, using(crate::proofs::Firsts::first_row, crate::proofs::Firsts::first_arrow), unfolding(crate::specs::Causes::rows_cause, bank::specs::Checks::and_then))]
    fn check_rows(&self) -> Result<(), TableFault>
        ensures { located result ≡ rows_cause self.now.width self.now.rows.now }
    {
        refused_at(TableCause::OptionTooLarge, self.first_option())?;
        refused_at(TableCause::ArrowNotDown, self.first_arrow())?;
        refused_at(TableCause::ChildNotLater, self.first_child())
    }

    // Refuses a table that breaks a rule, or has more rows than there is room for.
    #[tactic(auto, using(crate::proofs::Firsts::first_node, crate::proofs::Clear::clear_rows, crate::proofs::Clear::clear_node), unfolding(crate::specs::Causes::roots_cause, bank::specs::Checks::and_then, bank::specs::Checks::refused_at))]
    pub(crate) fn check(&self, room: usize) -> Result<(), TableFault>
        ensures value { located result ≡ open_cause room self.now.width self.now.rows.now self.now.roots.now }
        ensures wide { OnOk result ((1 ≤ self.now.width) × (self.now.width ≤ 128)) }
        ensures few { OnOk result ((length self.now.rows.now ≤ room) × (length self.now.roots.now ≤ 128)) }
        ensures lawful { OnOk result (Lawful self.now.width self.now.rows.now (length self.now.rows.now)) }
        ensures nodes { OnOk result ((i : ℕ) → i < length self.now.roots.now → slice_index self.now.roots.now i < length self.now.rows.now + 2) }
    {
        self.check_sizes(room)?;
        self.check_rows()?;
        refused_at(TableCause::RootUnknown, self.first_root())
    }
}
