// Propagation: asks the rules about the trail's values.
// The bank's rules are asked first, from the last to the first, then the learnt ones, the newest first; the first that is dead or
// marks an open option counts. In a pair the dearer rules stand first, so that they are asked only where the others have nothing to say.
ghost use Rattle.std.specs.Prelude.{◌≡◌, ℕ, List, length, take};
ghost use Rattle.builds.specs.Answers.{answer_of};
ghost use Rattle.bank.specs.Marking.{Ready};
ghost use Rattle.clauses.specs.Clause.{clause_meets};
ghost use Rattle.clauses.specs.TwoSets.{spelled, Tested};
ghost use Rattle.trail.specs.View.{trail_of, store_of};
ghost use Rattle.quiet.specs.Readers.{Reading};
ghost use Rattle.search.specs.Finding.{Marked, Hears, Finds, AllInside, Hushed};

use crate::search::Search;
use bank::refusal::Answer;
use bank::rule_bank::RuleBank;
use clauses::left::Left;
use clauses::set_clause::SetClause;
use clauses::value_sets::ValueSets;
use quiet::quiet::Quiet;
use quiet::readers::Readers;
use trail::entry::Source;

// An open option with the value that a rule marks it with.
#[derive(Clone, Copy, Drop)]
pub struct Mark {
    pub option: usize,
    pub value: bool,
}

// What a rule asks for: it is dead, or it marks an open option.
#[derive(Clone, Copy, Drop)]
pub enum Finding {
    Dead,
    Marks(Mark),
}

// The mark of the lowest open option that has one.
fn first_mark(values: &[u8], marks: &[u8]) -> Option<Mark>
    requires { length marks.now ≡ length values.now }
    ensures { Marked values.now marks.now result }
{
    // most rules mark nothing new, which is told sixteen options at a time
    if values == marks {
        return None;
    }
    let option = values
        .iter()
        .zip(marks)
        .position(|(value, mark)| *value == 2 && *mark < 2)?;
    Some(Mark {
        option,
        value: marks[option] == 1,
    })
}

// What a rule of the bank asks for. The rule and the tables are whole, so it is not refused.
fn ask<B: RuleBank>(b: &B, rule: usize, values: &[u8]) -> Option<Finding>
    requires { Ready (B.meaning b.now).width (B.meaning b.now).rules rule values.now 128 }
    ensures { Hears (B.meaning b.now).width (take (B.meaning b.now).width values.now) ((B.meaning b.now).says rule (take (B.meaning b.now).width values.now)) result }
{
    let width = b.width();
    let mut marks = [2u8; 128];
    match b.mark(rule, values, &mut marks) {
        Ok(Answer::Dead) => Some(Finding::Dead),
        Ok(Answer::Live) => first_mark(&values[..width], &marks[..width]).map(Finding::Marks),
        // no shared function for this (a): it would stand in bank, be public and demand what was tested, and no public call demands anything
        Err(_) => unreachable(),
    }
}

// What a learnt clause asks for.
fn ask_learnt(clause: SetClause, value_sets: ValueSets) -> Option<Finding>
    ensures { (v : List ℕ) (w : ℕ) → Tested clause value_sets v w → Hears w (take w v) (answer_of w (clause_meets (spelled clause)) (take w v)) result }
{
    match clause.left(value_sets) {
        Left::Nothing => Some(Finding::Dead),
        Left::One(literal) => Some(Finding::Marks(Mark {
            option: literal.option(),
            value: literal.wanted(),
        })),
        Left::Free => None,
    }
}

impl Search {
    // A rule that is dead or marks an open option, and what it asks for. Rules that are known to say nothing new are not asked.
    pub(crate) fn propagate<B: RuleBank>(
        &self,
        b: &B,
        readers: &Readers,
        quiet: &mut Quiet,
    ) -> Option<(Finding, Source)>
        ensures finds { Reading (B.meaning b.now) (B.reading b.now) readers.now.rules → Hushed (B.meaning b.now) quiet.old → AllInside (B.meaning b.now).width (store_of self.now.learnt)
            → Finds (B.meaning b.now) (store_of self.now.learnt) (trail_of self.now.trail.entries) result }
        ensures hushed { Reading (B.meaning b.now) (B.reading b.now) readers.now.rules → Hushed (B.meaning b.now) quiet.old → Hushed (B.meaning b.now) quiet.new }
    {
        let values = self.trail.values();
        quiet.wake(readers, &values);
        // loops with an early return: `find_map` over the numbers was tried and the proof did not close (c), since std tells no first answer of it, as it does of `find`
        for rule in (0..b.count()).rev() {
            if !quiet.holds(rule) {
                if let Some(finding) = ask(b, rule, &values) {
                    return Some((finding, Source::Bank(rule)));
                }
                quiet.hush(rule);
            }
        }
        let value_sets = self.trail.value_sets();
        for age in 0..self.learnt.len() {
            if let Some(finding) = ask_learnt(self.learnt.clause(age), value_sets) {
                return Some((finding, Source::Learnt(age)));
            }
        }
        None
    }
}
