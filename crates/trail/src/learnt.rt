// The store of learnt clauses. It is a ring: when it is full, the next clause takes the place of the oldest.
ghost use Rattle.std.specs.Prelude.{◌≡◌, ◌<◌, ◌≤◌, [], ◌∷◌, length, take, slice_index_or};
ghost use Rattle.arrayvec.specs.ArrayVec.{array_vec_len};
ghost use Rattle.clauses.specs.TwoSets.{spelled};
ghost use Rattle.trail.specs.Ring.{ring};

use arrayvec::ArrayVec;
use clauses::set_clause::SetClause;

// The newest of the clauses stands before the place `next`. A ring by hand, since memory is fixed and the kit's circular buffer allocates.
#[derive(Drop)]
pub struct Learnt {
    next: usize,
    clauses: ArrayVec<SetClause, 192>,
    ghost sized: { (array_vec_len clauses ≤ 192) × (next < 192) },
    ghost filling: { array_vec_len clauses < 192 → next ≡ array_vec_len clauses },
}

impl Learnt {
    // The store without a clause.
    #[tactic(auto, using(crate::proofs::Rings::ring_none))]
    pub fn empty() -> Learnt
        ensures { ring result.next result.clauses ≡ [] }
    {
        Learnt {
            next: 0,
            clauses: ArrayVec::new(),
        }
    }

    // Forgets all that was learnt.
    #[tactic(auto, using(crate::proofs::Rings::ring_none))]
    pub fn clear(&mut self)
        ensures { ring self.new.next self.new.clauses ≡ [] }
    {
        self.next = 0;
        self.clauses.clear();
    }

    // How many clauses there are.
    #[tactic(auto, using(crate::proofs::Rings::ring_length))]
    pub fn len(&self) -> usize
        ensures { result ≡ length (ring self.now.next self.now.clauses) }
    {
        self.clauses.len()
    }

    // The clause of that age; the newest has age 0. It has no literal where there is no such clause.
    pub fn clause(&self, age: usize) -> SetClause
        ensures { spelled result ≡ slice_index_or (ring self.now.next self.now.clauses) age [] }
    {
        if age >= self.len() {
            return SetClause::empty();
        }
        self.clauses[(self.next + 191 - age) % 192]
    }

    // One clause more; the oldest goes when there are 192.
    pub fn push(&mut self, clause: SetClause)
        ensures { ring self.new.next self.new.clauses ≡ take 192 (spelled clause ∷ ring self.old.next self.old.clauses) }
    {
        if self.clauses.is_full() {
            self.clauses[self.next] = clause;
        } else {
            self.clauses.push(clause);
        }
        self.next = (self.next + 1) % 192;
    }
}
