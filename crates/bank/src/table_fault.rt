// Why a table of rules cannot be opened, and which of its items is at fault.
ghost use Rattle.std.specs.Prelude.{◌≡◌};
ghost use Rattle.bank.specs.Numbers.{cause_number};

use std::error::Error;
use std::fmt;

// Why a table is refused. Dealers know a cause by the number beside it.
#[derive(Clone, Copy, PartialEq, Eq, Debug, Drop)]
pub enum TableCause {
    BadWidth = 11,
    TooMany = 12,
    ArrowNotDown = 13,
    ChildNotLater = 14,
    OptionTooLarge = 15,
    RootUnknown = 16,
    GroupBounds = 17,
    OptionTwice = 18,
    BlockOutside = 25,
}

// The cause, and the first item that has it, counted from 0 in its kind.
#[derive(Clone, Copy, PartialEq, Eq, Debug, Drop)]
pub struct TableFault {
    pub cause: TableCause,
    pub item: usize,
}

impl TableCause {
    // The number under which dealers know the cause.
    pub fn number(self) -> u8
        ensures { result ≡ cause_number self }
    {
        self as u8
    }
}

impl fmt::Display for TableCause {
    fn fmt<W: fmt::Write>(&self, f: &mut fmt::Formatter<W>) -> fmt::Result {
        f.write_str(match self {
            TableCause::BadWidth => "there must be 1 to 128 options",
            TableCause::TooMany =>
                "there are more rows, rules or entries than a table has room for",
            TableCause::ArrowNotDown => "an arrow must lead to an earlier node",
            TableCause::ChildNotLater => "a row must lead to rows of later options",
            TableCause::OptionTooLarge => "there is no such option",
            TableCause::RootUnknown => "there is no such node",
            TableCause::GroupBounds =>
                "a group needs lo up to hi, and hi up to its number of options",
            TableCause::OptionTwice => "an option stands twice in its group",
            TableCause::BlockOutside => "the block must have an option and lie within the options",
        })
    }
}

impl Error for TableCause {}
