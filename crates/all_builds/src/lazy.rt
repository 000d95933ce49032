// A bank that is lawful and lazy: it says nothing until every option has a value, and then what the bank in it says. A session over it has
// no marks to go by and runs into many conflicts, and its answers have to be right all the same.
ghost use Rattle.std.specs.Prelude.{true};
ghost use Rattle.bank.specs.Reading.{all_local};
ghost use Rattle.all_builds.specs.Laziness.{lazy_bank, lazy_duties};

use bank::asked::{check_asked, values_up_to};
use bank::refusal::{Answer, Refusal};
use bank::rule_bank::RuleBank;
use option_set::OptionSet;

#[derive(Drop)]
pub struct Lazy<B> {
    pub bank: B,
}

impl<B: RuleBank> RuleBank for Lazy<B> {
    ghost meaning = { λ s. lazy_bank (B.RuleBank.meaning s.bank) };

    ghost duties = { λ s. lazy_duties (B.RuleBank.meaning s.bank) (B.RuleBank.duties s.bank) };

    ghost reading = { λ s _ _. true };

    ghost local = { λ s. all_local (lazy_bank (B.RuleBank.meaning s.bank)) };

    fn width(&self) -> usize {
        self.bank.width()
    }

    fn count(&self) -> usize {
        self.bank.count()
    }

    // It does not care, and so says all of them.
    fn reads(&self, _rule: usize) -> OptionSet {
        OptionSet::below(128)
    }

    fn mark(&self, rule: usize, values: &[u8], marks: &mut [u8]) -> Result<Answer, Refusal> {
        let w = self.width();
        if values_up_to(values, w, 1) {
            return self.bank.mark(rule, values, marks);
        }
        check_asked(w, self.count(), rule, values, marks.len())?;
        marks[..w].copy_from_slice(&values[..w]);
        Ok(Answer::Live)
    }
}
