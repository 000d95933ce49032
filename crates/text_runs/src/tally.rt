// How many orders were quoted, and how many of the listings were as expected.
use std::fmt;

#[derive(Clone, Copy, Default, Drop)]
pub struct Tally {
    asked: usize,
    right: usize,
}

impl Tally {
    pub fn count(&mut self, right: bool) {
        self.asked = self.asked.saturating_add(1);
        self.right = self.right.saturating_add(right as usize);
    }
}

impl fmt::Display for Tally {
    fn fmt<W: fmt::Write>(&self, f: &mut fmt::Formatter<W>) -> fmt::Result {
        let Tally { asked, right } = *self;
        write!(f, "{right} of {asked} as expected")
    }
}
