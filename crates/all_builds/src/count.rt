// A count that stays at the largest number rather than begin anew.
use std::fmt;

#[derive(Clone, Copy, Default, PartialEq, Eq, Debug, Drop)]
pub struct Count(u64);

impl Count {
    pub fn one_more(&mut self) {
        self.0 = self.0.saturating_add(1);
    }

    pub fn is_none(self) -> bool {
        self.0 == 0
    }
}

impl fmt::Display for Count {
    fn fmt<W: fmt::Write>(&self, f: &mut fmt::Formatter<W>) -> fmt::Result {
        let Count(number) = *self;
        write!(f, "{number}")
    }
}
