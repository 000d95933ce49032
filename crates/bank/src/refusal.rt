// What a call on a bank or a session answers, and why it refuses.
ghost use Rattle.std.specs.Prelude.{◌≡◌};
ghost use Rattle.bank.specs.Numbers.{number_of};

use std::error::Error;
use std::fmt;

// What a rule says of a values table; at `Live` the marks stand in the place handed in.
#[derive(Clone, Copy, PartialEq, Eq, Debug, Drop)]
pub enum Answer {
    Dead,
    Live,
}

// Why a call refuses what it was given; nothing has changed then. Dealers know a cause by the number beside it.
#[derive(Clone, Copy, PartialEq, Eq, Debug, Drop)]
pub enum Refusal {
    OptionOutside = 1,
    PickValue = 2,
    AlreadyPicked = 3,
    NotPicked = 4,
    BudgetTooLarge = 5,
    NoOpenSearch = 6,
    NoSuchRule = 7,
    ShortPlace = 8,
    BadValue = 9,
    TooManyOpen = 10,
}

impl Refusal {
    // The number under which dealers know the cause.
    pub fn number(self) -> u8
        ensures { result ≡ number_of self }
    {
        self as u8
    }
}

impl fmt::Display for Refusal {
    fn fmt<W: fmt::Write>(&self, f: &mut fmt::Formatter<W>) -> fmt::Result {
        f.write_str(match self {
            Refusal::OptionOutside => "there is no such option",
            Refusal::PickValue => "an option is picked 0 or 1",
            Refusal::AlreadyPicked => "the option is already picked",
            Refusal::NotPicked => "the option is not picked",
            Refusal::BudgetTooLarge => "the budget is too large",
            Refusal::NoOpenSearch => "there is no search to go on with",
            Refusal::NoSuchRule => "there is no such rule",
            Refusal::ShortPlace => "a place handed in is too short",
            Refusal::BadValue => "a value is not 0, 1 or 2",
            Refusal::TooManyOpen => "too many options are open",
        })
    }
}

impl Error for Refusal {}
