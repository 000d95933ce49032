// A clause: up to N literals in a place of fixed size, so that no call can fail for want of memory.
ghost use Rattle.std.specs.Prelude.{◌≡◌, ◌<◌, ◌≤◌, true, [], ◌∷◌, ◌++◌, length, min};
ghost use Rattle.clauses.specs.Literals.{numbers, within};

use crate::literal::Literal;
use std::marker::Model;

// The first `len` of the literals are the clause's.
// A byte beside the array, since memory is fixed: an ArrayVec's length takes eight, and a table's 512 clauses 4 KiB more.
#[derive(Default, Drop)]
pub struct Clause<const N: usize> {
    len: u8,
    literals: [Literal; N],
}

// Contracts see a clause as the list of its literals.
impl<const N: usize> Model for Clause<N> {
    ghost use Rattle.std.specs.Prelude.{◌≡◌, ◌≤◌, List, length, take};
    ghost use Rattle.clauses.specs.declared.literal.Literal.{Literal};

    ghost Value = { List Literal };

    ghost view = { λ c. take c.len c.literals };

    ghost invariant = { λ c. (c.len ≤ N) × (length c.literals ≡ N) };
}

impl<const N: usize> Clause<N> {
    // The clause without a literal.
    pub fn empty() -> Clause<N>
        ensures { result ≡ [] }
    {
        Clause::default()
    }

    // The clause of these literals. Each is a byte, since no table has an option above 127.
    #[tactic(auto, using(crate::proofs::Literals::byte_at))]
    pub(crate) fn of(literals: &[u32]) -> Clause<N>
        requires short { length literals.now ≤ N }
        requires byte { N < 256 }
        requires inside { within 128 literals.now ≡ true }
        ensures { numbers result ≡ literals.now }
    {
        // no test of each place and length: so the loop is done several literals at a time
        let mut clause = Clause::empty();
        for (i, literal) in literals.iter().enumerate() {
            clause.literals[i] = Literal::new(*literal as u8);
        }
        clause.len = literals.len() as u8;
        clause
    }

    // One literal more, if there is room for it: a length of one byte ends at 255.
    pub fn push(&mut self, literal: Literal)
        ensures more { length self.old < min N 255 → self.new ≡ self.old ++ literal ∷ [] }
        ensures full { min N 255 ≤ length self.old → self.new ≡ self.old }
    {
        let at = self.len as usize;
        if at < N && at < 255 {
            self.literals[at] = literal;
            self.len += 1;
        }
    }

    // The clause's literals.
    pub fn literals(&self) -> &[Literal]
        ensures { result.now ≡ self.now }
    {
        &self.literals[..self.len as usize]
    }
}
