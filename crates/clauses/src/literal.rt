// A literal: an option and the value that is wanted of it, in one number, as dealers write it.
ghost use Rattle.std.specs.Prelude.{◌≡◌, ◌/◌};
ghost use Rattle.clauses.specs.Clause.{wants};

use option_set::OfOption;

// The number is 2 × option + wanted value: one byte and not two fields, since a table has 16,384 places for literals in its fixed memory.
#[derive(Clone, Copy, PartialEq, Eq, Debug, Default, Drop)]
pub struct Literal {
    number: u8,
}

impl Literal {
    // The literal of a number. By this name and no `From`, which would not say that a byte is read as 2 × option + wanted value.
    pub fn new(number: u8) -> Literal
        ensures { result.number ≡ number }
    {
        Literal { number }
    }

    // Its number.
    pub fn number(self) -> u8
        ensures { result ≡ self.number }
    {
        self.number
    }

    // The option that the literal is of.
    pub fn option(self) -> usize
        ensures { result ≡ self.number / 2 }
    {
        (self.number / 2) as usize
    }

    // The value that it wants: whether the option is taken.
    pub fn wanted(self) -> bool
        ensures { result ≡ wants self.number }
    {
        self.number % 2 == 1
    }
}

impl OfOption for Literal {
    ghost option = { λ literal. literal.number / 2 };

    fn of_option(&self) -> usize {
        self.option()
    }
}
