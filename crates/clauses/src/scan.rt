// Scans a clause under a values table: the kernel of the clause bank.
ghost use Rattle.std.specs.Prelude.{◌≡◌, ℕ, ◌≤◌, true, length, take, slice_index_or};
ghost use Rattle.builds.specs.Values.{up_to};
ghost use Rattle.builds.specs.Answers.{answer_of};
ghost use Rattle.clauses.specs.Clause.{clause_meets};
ghost use Rattle.clauses.specs.Literals.{numbers, within};
ghost use Rattle.clauses.specs.Scan.{stepped, scanned, clause_says};

use crate::left::Left;
use crate::literal::Literal;

// One literal more, whose option has this value. A literal that was seen before adds nothing.
fn step(found: Left, literal: Literal, value: u8) -> Left
    ensures { result ≡ stepped found literal value }
{
    if value == literal.wanted() as u8 {
        return Left::Free;
    }
    if value < 2 {
        return found;
    }
    match found {
        Left::Nothing => Left::One(literal),
        Left::One(other) if other == literal => found,
        Left::One(_) | Left::Free => Left::Free,
    }
}

// The value of an option; past the table's end it is open.
fn value_at(values: &[u8], option: usize) -> u8
    ensures { result ≡ slice_index_or values.now option 2 }
{
    values.get(option).copied().unwrap_or(2)
}

// What the values leave of the clause.
pub fn scan(literals: &[Literal], values: &[u8]) -> Left
    ensures value { result ≡ scanned values.now Left.Nothing literals.now }
    ensures says { (w : ℕ) → within w (numbers literals.now) ≡ true → w ≤ length values.now → up_to 2 (take w values.now) ≡ true → answer_of w (clause_meets (numbers literals.now)) (take w values.now) ≡ clause_says (take w values.now) result }
{
    literals.iter().fold(Left::Nothing, |found, literal| {
        step(found, *literal, value_at(values, literal.option()))
    })
}
