// A small bank to test the layers with: rule r wants the option r % width taken.
// It is dead where that option is left out, and else marks it taken.
ghost use Rattle.std.specs.Prelude.{◌≡◌, ◌≤◌, min, max};
ghost use Rattle.bank.proofs.Exactness.{exact_duties};
ghost use Rattle.layers_tests.specs.Wanting.{wants_meets, wants_bank, wants_reading, wants_local};

use bank::asked::check_asked;
use bank::refusal::{Answer, Refusal};
use bank::rule_bank::RuleBank;
use option_set::OptionSet;

#[derive(Drop)]
pub struct Wants {
    width: usize,
    count: usize,
    ghost sized: { (1 ≤ width) × (width ≤ 128) × (count ≤ 1024) },
}

impl Wants {
    // At least one and at most 128 options, and at most 1,024 rules.
    pub fn new(width: usize, count: usize) -> Wants
        ensures { (result.width ≡ min 128 (max 1 width)) × (result.count ≡ min 1024 count) }
    {
        Wants {
            width: width.max(1).min(128),
            count: count.min(1024),
        }
    }
}

impl RuleBank for Wants {
    ghost meaning = { λ s. wants_bank s.width s.count };

    ghost duties = { λ s. exact_duties s.width s.count (wants_meets s.width) s.sized.0 s.sized.1 s.sized.2 };

    ghost reading = { λ s. wants_reading s.width };

    ghost local = { λ s. wants_local s.width s.count };

    fn width(&self) -> usize {
        self.width
    }

    fn count(&self) -> usize {
        self.count
    }

    fn reads(&self, rule: usize) -> OptionSet {
        OptionSet::empty().insert(rule % self.width)
    }

    fn mark(&self, rule: usize, values: &[u8], marks: &mut [u8]) -> Result<Answer, Refusal> {
        let w = self.width;
        check_asked(w, self.count, rule, values, marks.len())?;
        let wanted = rule % w;
        if values[wanted] == 0 {
            return Ok(Answer::Dead);
        }
        marks[0..w].copy_from_slice(&values[0..w]);
        marks[wanted] = 1;
        Ok(Answer::Live)
    }
}
