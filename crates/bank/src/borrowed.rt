// A bank that is borrowed is a bank too. Tables of rules are large; what holds one this way can be moved without copying it.
use crate::refusal::{Answer, Refusal};
use crate::rule_bank::RuleBank;
use option_set::OptionSet;

impl<'b, B: RuleBank> RuleBank for &'b B {
    ghost meaning = { λ s. B.RuleBank.meaning s.now };

    ghost duties = { λ s. B.RuleBank.duties s.now };

    ghost reading = { λ s. B.RuleBank.reading s.now };

    ghost local = { λ s. B.RuleBank.local s.now };

    fn width(&self) -> usize {
        (**self).width()
    }

    fn count(&self) -> usize {
        (**self).count()
    }

    fn reads(&self, rule: usize) -> OptionSet {
        (**self).reads(rule)
    }

    #[inline(always)]
    fn mark(&self, rule: usize, values: &[u8], marks: &mut [u8]) -> Result<Answer, Refusal> {
        (**self).mark(rule, values, marks)
    }
}
