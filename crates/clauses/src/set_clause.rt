// A clause as two sets of options: those that it wants taken, and those that it wants left out.
// For learnt clauses, which may name every option: two sets are scanned in a few operations, whatever their number of literals.
ghost use Rattle.std.specs.Prelude.{◌≡◌, ℕ, ◌<◌, Bool, true, false, not, ◌&&◌, List, [], take};
ghost use Rattle.builds.specs.Answers.{answer_of};
ghost use Rattle.option_set.specs.Sets.{member};
ghost use Rattle.clauses.specs.Clause.{clause_meets};
ghost use Rattle.clauses.specs.Literals.{names};
ghost use Rattle.clauses.specs.Scan.{clause_says};
ghost use Rattle.clauses.specs.TwoSets.{spelled, wanted_of, given_by, Tested, Met, Remains, RemainsOf, OpenOne};

use crate::left::Left;
use crate::literal::Literal;
use crate::value_sets::ValueSets;
use option_set::OptionSet;

// A build meets the clause when it takes one of the first options or leaves out one of the second.
#[derive(Clone, Copy, PartialEq, Eq, Default, Drop)]
pub struct SetClause {
    pub taken: OptionSet,
    pub left_out: OptionSet,
}

// What is left of literals of these open options, which all want the same value.
fn one_of(options: OptionSet, wanted: bool) -> Left
    ensures { RemainsOf options.members wanted result }
{
    if options.is_empty() {
        return Left::Nothing;
    }
    match options.only() {
        Some(option) => Left::One(Literal::new(2 * option as u8 + wanted as u8)),
        None => Left::Free,
    }
}

impl SetClause {
    // The clause without a literal.
    pub fn empty() -> SetClause
        ensures { spelled result ≡ [] }
    {
        SetClause {
            taken: OptionSet::empty(),
            left_out: OptionSet::empty(),
        }
    }

    // The options that the clause is of.
    pub fn options(self) -> OptionSet
        ensures { (o : ℕ) → o < 128 → member result.members o ≡ names (spelled self) o }
    {
        self.taken.union(self.left_out)
    }

    // Whether an option has a value that the clause wants.
    fn is_met(self, values: ValueSets) -> bool
        ensures { Met self values result }
    {
        let taken = self.taken.common(values.taken);
        let left_out = self.left_out.common(values.left_out);
        !taken.union(left_out).is_empty()
    }

    // The clause without the literals that are false.
    fn without_false(self, values: ValueSets) -> SetClause
        ensures { (o : ℕ) (x : Bool) → wanted_of result o x ≡ (wanted_of self o x && not (given_by values o (not x))) }
    {
        SetClause {
            taken: self.taken.without(values.left_out),
            left_out: self.left_out.without(values.taken),
        }
    }

    // What is left of a clause whose options are all open.
    fn remains(self) -> Left
        ensures { Remains self result }
    {
        if self.left_out.is_empty() {
            return one_of(self.taken, true);
        }
        if self.taken.is_empty() {
            return one_of(self.left_out, false);
        }
        Left::Free
    }

    // What the values leave of the clause, as `scan` says it of the literals that it spells. A clause that wants an option both ways is always free.
    pub fn left(self, values: ValueSets) -> Left
        ensures says { (v : List ℕ) (w : ℕ) → Tested self values v w → answer_of w (clause_meets (spelled self)) (take w v) ≡ clause_says (take w v) result }
        ensures one { (v : List ℕ) (w : ℕ) → Tested self values v w → OpenOne w v result }
        ensures both { (o : ℕ) → o < 128 → wanted_of self o true ≡ true → wanted_of self o false ≡ true → result ≡ Left.Free }
    {
        if self.is_met(values) {
            return Left::Free;
        }
        self.without_false(values).remains()
    }
}
