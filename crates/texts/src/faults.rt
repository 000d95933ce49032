// Faults of the texts. Three layers can refuse a line: the line itself, a table of rules, and the session.
// An upper layer hands the fault of a lower one up whole and adds where it was. The numbers of line faults and of the texts stand
// at the variants, and specs/Causes defines them for the contracts.
ghost use Rattle.std.specs.Prelude.{◌≡◌, ◌+◌, ◌<◌, ◌≤◌};
ghost use Rattle.texts.specs.declared.faults.Cause.TheVariants.{Line, Table, Session};
ghost use Rattle.texts.specs.Causes.{line_number, text_number, text_told, line_told, layered, placed_at};

use bank::refusal::Refusal;
use bank::table_fault::TableFault;
use std::error::Error;
use std::fmt;

// Why a line is none, whatever it says, with the numbers under which dealers know these faults.
#[derive(Clone, Copy, PartialEq, Eq, Debug, Drop)]
pub enum LineFault {
    // the letter is unknown or out of turn
    Letter = 21,
    // the line has another length, or its LF is missing
    Length = 22,
    // some columns are no field
    Field = 23,
    // the whole text is too long
    TooLong = 24,
}

// A fault with its layer.
#[derive(Clone, Copy, PartialEq, Eq, Debug, Drop)]
pub enum Cause {
    Line(LineFault),
    Table(TableFault),
    Session(Refusal),
}

// The texts, with their numbers.
#[derive(Clone, Copy, PartialEq, Eq, Debug, Drop)]
pub enum Text {
    Rules = 1,
    Picks = 2,
}

// A fault with its place: the text and the line, where it was in one.
// Two options and not one of a pair: a text that is too long has a fault without a line, and the listing tells both numbers apart.
#[derive(Clone, Copy, PartialEq, Eq, Debug, Drop)]
pub struct AtLine<E> {
    pub text: Option<Text>,
    pub line: Option<usize>,
    pub cause: E,
}

pub type TextFault = AtLine<Cause>;

impl LineFault {
    // The number under which dealers know the fault.
    pub fn number(self) -> u8
        ensures { result ≡ line_number self }
    {
        self as u8
    }
}

// Both are matches: these variants hold values, so there is no discriminant to read as above.
impl Cause {
    // The layer that refused.
    pub fn layer(self) -> u8
        ensures { result ≡ (layered self).layer }
    {
        match self {
            Cause::Line(_) => 1,
            Cause::Table(_) => 2,
            Cause::Session(_) => 3,
        }
    }

    // The number of the cause in that layer.
    pub fn number(self) -> u8
        ensures { result ≡ (layered self).number }
    {
        match self {
            Cause::Line(fault) => fault.number(),
            Cause::Table(fault) => fault.cause.number(),
            Cause::Session(refusal) => refusal.number(),
        }
    }
}

impl Text {
    // The number of the text.
    pub fn number(self) -> u8
        ensures { result ≡ text_number self }
    {
        self as u8
    }
}

impl<E> AtLine<E> {
    // The number of the text, 0 for neither.
    pub fn text_number(&self) -> u8
        ensures { result ≡ text_told self.now.text }
    {
        self.text.map_or(0, Text::number)
    }

    // The number of the line, 0 for none.
    pub fn line_number(&self) -> usize
        ensures { result ≡ line_told self.now.line }
    {
        self.line.unwrap_or(0)
    }
}

impl fmt::Display for LineFault {
    fn fmt<W: fmt::Write>(&self, f: &mut fmt::Formatter<W>) -> fmt::Result {
        f.write_str(match self {
            LineFault::Letter => "a line with this letter is unknown or may not stand here",
            LineFault::Length => "the line is too short or too long, or the last one does not end",
            LineFault::Field => "a column does not hold a number as it should stand there",
            LineFault::TooLong => "the text is too long",
        })
    }
}

impl Error for LineFault {}

impl fmt::Display for Cause {
    fn fmt<W: fmt::Write>(&self, f: &mut fmt::Formatter<W>) -> fmt::Result {
        match self {
            Cause::Line(fault) => fault.fmt(f),
            Cause::Table(fault) => fault.cause.fmt(f),
            Cause::Session(refusal) => refusal.fmt(f),
        }
    }
}

impl Error for Cause {}

impl From<LineFault> for Cause {
    ghost from_gives = { λ e r. r ≡ Line e };

    fn from(e: LineFault) -> Cause {
        Cause::Line(e)
    }
}

impl From<TableFault> for Cause {
    ghost from_gives = { λ e r. r ≡ Table e };

    fn from(e: TableFault) -> Cause {
        Cause::Table(e)
    }
}

impl From<Refusal> for Cause {
    ghost from_gives = { λ e r. r ≡ Session e };

    fn from(e: Refusal) -> Cause {
        Cause::Session(e)
    }
}

// What a line gave after so many others, a fault with the line's number. No text has so many lines that the number would not fit.
pub fn at_line<T, E>(res: Result<T, E>, text: Option<Text>, before: usize) -> Result<T, AtLine<E>>
    ensures value { before < 18446744073709551615 → result ≡ placed_at text (before + 1) res }
    ensures most { 18446744073709551615 ≤ before → result ≡ placed_at text 18446744073709551615 res }
{
    res.map_err(|cause| AtLine {
        text,
        line: Some(before.saturating_add(1)),
        cause,
    })
}
