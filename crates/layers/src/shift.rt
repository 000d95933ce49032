// A bank moved up: a bank of w options shifted by s has the options s to s + w - 1, and leaves those below alone.
// A shift that would lead past 128 options is taken as the greatest that does not.
ghost use Rattle.std.specs.Prelude.{◌≡◌};
ghost use Rattle.layer_theory.specs.Layers.{shift_at, shift_bank, shift_reading};
ghost use Rattle.layer_theory.specs.Laws.{PlacedLaw, ShiftExactLaw};
ghost use Rattle.layer_theory.proofs.Shifted.{shift_duties, shift_local};

use crate::part::Part;
use bank::asked::check_asked;
use bank::refusal::{Answer, Refusal};
use bank::rule_bank::RuleBank;
use option_set::OptionSet;

#[derive(Drop)]
pub struct Shift<B> {
    pub bank: B,
    pub by: usize,
}

impl<B> Shift<B> {
    // The bank moved up by `by` options. Where it marks everything that the definition marks, so does the shift.
    #[tactic(auto, using(layer_theory::proofs::Placed::placed_law, layer_theory::proofs::Shifted::shift_exact))]
    pub fn new(bank: B, by: usize) -> Shift<B>
        ensures parts { (result.bank ≡ bank) × (result.by ≡ by) }
        ensures placed { PlacedLaw }
        ensures exact { ShiftExactLaw }
    {
        Shift { bank, by }
    }
}

impl<B: RuleBank> Shift<B> {
    // The option at which the bank's options begin.
    fn start(&self) -> usize
        ensures { result ≡ shift_at self.now.by (B.meaning self.now.bank) }
    {
        self.by.min(128 - self.bank.width())
    }
}

impl<B: RuleBank> RuleBank for Shift<B> {
    ghost meaning = { λ s. shift_bank s.by (B.RuleBank.meaning s.bank) };

    ghost duties = { λ s. shift_duties s.by (B.RuleBank.duties s.bank) };

    ghost reading = { λ s. shift_reading s.by (B.RuleBank.meaning s.bank) (B.RuleBank.reading s.bank) };

    ghost local = { λ s. shift_local s.by (B.RuleBank.duties s.bank) (B.RuleBank.local s.bank) };

    fn width(&self) -> usize {
        self.start() + self.bank.width()
    }

    fn count(&self) -> usize {
        self.bank.count()
    }

    fn reads(&self, rule: usize) -> OptionSet {
        Part::at(&self.bank, self.start()).reads(rule)
    }

    #[inline(always)]
    fn mark(&self, rule: usize, values: &[u8], marks: &mut [u8]) -> Result<Answer, Refusal> {
        let w = self.width();
        check_asked(w, self.count(), rule, values, marks.len())?;
        Ok(Part::at(&self.bank, self.start()).mark(w, rule, values, marks))
    }
}
