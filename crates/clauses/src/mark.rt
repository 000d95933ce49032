// Writes down what a clause says of a values table: one scan, and one pass over the options.
ghost use Rattle.std.specs.Prelude.{◌≡◌, true, length};
ghost use Rattle.builds.specs.Values.{up_to};
ghost use Rattle.builds.specs.Answers.{answer_of};
ghost use Rattle.bank.specs.Marking.{heard, noted};
ghost use Rattle.clauses.specs.Clause.{clause_meets};
ghost use Rattle.clauses.specs.Literals.{numbers, within};

use crate::left::Left;
use crate::literal::Literal;
use crate::scan::scan;
use bank::refusal::Answer;

// Marks one clause. The two places are the options', no more and no less; at dead the marks stay.
#[inline(always)]
pub fn mark_clause(literals: &[Literal], values: &[u8], marks: &mut [u8]) -> Answer
    requires inside { within (length values.now) (numbers literals.now) ≡ true }
    requires room { length marks.old ≡ length values.now }
    requires small { up_to 2 values.now ≡ true }
    ensures value { result ≡ heard (answer_of (length values.now) (clause_meets (numbers literals.now)) values.now) }
    ensures after { marks.new ≡ noted (answer_of (length values.now) (clause_meets (numbers literals.now)) values.now) marks.old }
{
    match scan(literals, values) {
        Left::Nothing => Answer::Dead,
        Left::One(literal) => {
            marks.copy_from_slice(values);
            marks[literal.option()] = literal.wanted() as u8;
            Answer::Live
        }
        Left::Free => {
            marks.copy_from_slice(values);
            Answer::Live
        }
    }
}
