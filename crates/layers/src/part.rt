// A bank that stands at some of the options of a wider table: what a pair and a shift share.
// The bank writes its marks straight into its part of the place, and the values around them are copied.
ghost use Rattle.std.specs.Prelude.{◌≡◌, ℕ, ◌+◌, ◌-◌, ◌<◌, ◌≤◌, true, ◌++◌, length, take, drop};
ghost use Rattle.option_set.specs.Sets.{member};
ghost use Rattle.builds.specs.Values.{up_to};
ghost use Rattle.bank.specs.Marking.{heard, noted};
ghost use Rattle.layer_theory.specs.Layers.{part_says, part_reads};

use bank::refusal::Answer;
use bank::rule_bank::RuleBank;
use option_set::OptionSet;

// Marks the places `from` to `to` with their values.
#[tactic(auto, using(std::proofs::lemmas::Slice::overwrites))]
fn copy_part(marks: &mut [u8], values: &[u8], from: usize, to: usize)
    requires { (from ≤ to) × ((to ≤ length marks.old) × (to ≤ length values.now)) }
    ensures { marks.new ≡ take from marks.old ++ (take (to - from) (drop from values.now) ++ drop to marks.old) }
{
    marks[from..to].copy_from_slice(&values[from..to]);
}

// A bank, and the option of the wider table at which its own options begin.
#[derive(Clone, Copy)]
pub(crate) struct Part<'b, B> {
    bank: &'b B,
    start: usize,
}

impl<'b, B> Part<'b, B> {
    pub fn at(bank: &'b B, start: usize) -> Part<'b, B>
        ensures { (result.bank ≡ bank.entry) × (result.start ≡ start) }
    {
        Part { bank, start }
    }
}

impl<'b, B: RuleBank> Part<'b, B> {
    // The options of the wider table that the rule reads. A bank may claim options that it does not have; only its own are told.
    pub fn reads(&self, rule: usize) -> OptionSet
        ensures { (o : ℕ) → o < 128 → member result.members o ≡ part_reads self.now.start (B.meaning self.now.bank.now).width (B.reading self.now.bank.now rule) o }
    {
        let own = OptionSet::below(self.bank.width());
        self.bank.reads(rule).common(own).shifted(self.start)
    }

    // Marks a table of `w` options. The caller has tested what `mark` refuses, so the bank cannot refuse its part.
    #[inline(always)]
    pub fn mark(&self, w: usize, rule: usize, values: &[u8], marks: &mut [u8]) -> Answer
        requires inside { self.now.start + (B.meaning self.now.bank.now).width ≤ w }
        requires long { w ≤ length values.now }
        requires room { w ≤ length marks.old }
        requires known { rule < (B.meaning self.now.bank.now).rules }
        requires small { up_to 2 (take w values.now) ≡ true }
        ensures value { result ≡ heard (part_says self.now.start (B.meaning self.now.bank.now).width ((B.meaning self.now.bank.now).says rule) (take w values.now)) }
        ensures after { marks.new ≡ noted (part_says self.now.start (B.meaning self.now.bank.now).width ((B.meaning self.now.bank.now).says rule) (take w values.now)) marks.old }
    {
        let start = self.start;
        let end = start + self.bank.width();
        match self
            .bank
            .mark(rule, &values[start..end], &mut marks[start..end])
        {
            Ok(Answer::Live) => {
                copy_part(marks, values, 0, start);
                copy_part(marks, values, end, w);
                Answer::Live
            }
            Ok(Answer::Dead) => Answer::Dead,
            // a bank that was asked rightly does not refuse; one function for this, search and session would be public in bank with a `requires`, and no public call has one
            Err(_) => unreachable(),
        }
    }
}
