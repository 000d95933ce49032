// A pair of banks: the rules of the first, then those of the second, over the options of the wider one.
// Rules past 1,024 are left off, since no bank may have more.
ghost use Rattle.std.specs.Prelude.{◌≡◌};
ghost use Rattle.layer_theory.specs.Layers.{pair_bank, pair_reading};
ghost use Rattle.layer_theory.specs.Laws.{PlacedLaw, PairExactLaw};
ghost use Rattle.layer_theory.proofs.Paired.{pair_duties, pair_local};

use crate::part::Part;
use bank::asked::check_asked;
use bank::refusal::{Answer, Refusal};
use bank::rule_bank::RuleBank;
use option_set::OptionSet;

#[derive(Drop)]
pub struct Pair<A, B> {
    pub first: A,
    pub second: B,
}

impl<A, B> Pair<A, B> {
    // The two banks as one. Where both mark everything that the definition marks, so does the pair.
    #[tactic(auto, using(layer_theory::proofs::Placed::placed_law, layer_theory::proofs::Paired::pair_exact))]
    pub fn new(first: A, second: B) -> Pair<A, B>
        ensures parts { (result.first ≡ first) × (result.second ≡ second) }
        ensures placed { PlacedLaw }
        ensures exact { PairExactLaw }
    {
        Pair { first, second }
    }
}

impl<A: RuleBank, B: RuleBank> RuleBank for Pair<A, B> {
    ghost meaning = { λ s. pair_bank (A.RuleBank.meaning s.first) (B.RuleBank.meaning s.second) };

    ghost duties = { λ s. pair_duties (A.RuleBank.duties s.first) (B.RuleBank.duties s.second) };

    ghost reading = { λ s. pair_reading (A.RuleBank.meaning s.first) (B.RuleBank.meaning s.second) (A.RuleBank.reading s.first) (B.RuleBank.reading s.second) };

    ghost local = { λ s. pair_local (A.RuleBank.duties s.first) (B.RuleBank.duties s.second) (A.RuleBank.local s.first) (B.RuleBank.local s.second) };

    fn width(&self) -> usize {
        self.first.width().max(self.second.width())
    }

    fn count(&self) -> usize {
        (self.first.count() + self.second.count()).min(1024)
    }

    // Two branches, since the two banks are of two types.
    #[tactic(auto, unfolding(layer_theory::specs::Layers::pair_reading))]
    fn reads(&self, rule: usize) -> OptionSet {
        let n = self.first.count();
        if rule < n {
            Part::at(&self.first, 0).reads(rule)
        } else {
            Part::at(&self.second, 0).reads(rule - n)
        }
    }

    // What is refused is decided by the pair's own width, also where the bank that has the rule is narrower.
    // Inlined, so that the compiler sees that values and marks never overlap: a library for C then needs no `memmove` from outside.
    #[inline(always)]
    #[tactic(auto, unfolding(layer_theory::specs::Layers::pair_says))]
    fn mark(&self, rule: usize, values: &[u8], marks: &mut [u8]) -> Result<Answer, Refusal> {
        let w = self.width();
        check_asked(w, self.count(), rule, values, marks.len())?;
        let n = self.first.count();
        if rule < n {
            Ok(Part::at(&self.first, 0).mark(w, rule, values, marks))
        } else {
            Ok(Part::at(&self.second, 0).mark(w, rule - n, values, marks))
        }
    }
}
