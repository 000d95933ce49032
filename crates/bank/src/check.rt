// Checks of a table before it is filled: a check refuses for its cause, at the item that was found to have it.
ghost use Rattle.std.specs.Prelude.{◌≡◌, ◌<◌, ◌≤◌, OnOk};
ghost use Rattle.bank.specs.Numbers.{located};
ghost use Rattle.bank.specs.Checks.{refused_at, width_cause};

use crate::table_fault::{TableCause, TableFault};

// Refuses for the cause where an item has it.
#[tactic(auto, unfolding(crate::specs::Checks::refused_at))]
pub fn refused_at(cause: TableCause, item: Option<usize>) -> Result<(), TableFault>
    ensures { located result ≡ refused_at cause item }
{
    match item {
        Some(item) => Err(TableFault { cause, item }),
        None => Ok(()),
    }
}

// Refuses a number of options that no table has.
#[tactic(auto, unfolding(crate::specs::Checks::refused_at))]
pub fn check_width(width: usize) -> Result<(), TableFault>
    ensures value { located result ≡ width_cause width }
    ensures wide { OnOk result ((1 ≤ width) × (width ≤ 128)) }
{
    let bad = width == 0 || width > 128;
    refused_at(TableCause::BadWidth, bad.then_some(0))
}
