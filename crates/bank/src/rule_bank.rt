// The interface of a rule bank: what it means, what it owes, and its calls.
// The duties are ghost members and no laws, so that a bank over lent memory can have them too.
ghost use Rattle.std.specs.Prelude.{◌≡◌, ℕ, ◌<◌, Bool, length};
ghost use Rattle.option_set.specs.Sets.{member};
ghost use Rattle.bank.specs.Banks.{Bank, Duties};
ghost use Rattle.bank.specs.Reading.{Local};
ghost use Rattle.bank.specs.Numbers.{numbered};
ghost use Rattle.bank.specs.Marking.{mark_reply, mark_place};

use crate::refusal::{Answer, Refusal};
use option_set::OptionSet;

pub trait RuleBank {
    // the options, the rules, the builds that meet a rule, and what `mark` says
    ghost meaning: { Self → Bank };

    ghost duties: { (b : Self) → Duties (meaning b) };

    // which options a rule reads; a bank that does not care says all of them
    ghost reading: { Self → ℕ → ℕ → Bool };

    ghost local: { (b : Self) → Local (meaning b) (reading b) };

    // The number of options.
    fn width(&self) -> usize
        ensures { result ≡ (meaning self.now).width };

    // The number of rules.
    fn count(&self) -> usize
        ensures { result ≡ (meaning self.now).rules };

    // The options that a rule reads.
    fn reads(&self, rule: usize) -> OptionSet
        ensures { (o : ℕ) → o < 128 → member result.members o ≡ reading self.now rule o };

    // Whether the rule is dead under the values, or live with these marks.
    // At a refusal and at dead the place stays as it is; at live its first places, as many as there are options, are written.
    // Values and marks are numbers, since a caller may hand in a number that is no value: that is refusal 9.
    // Each bank tests first what is refused, by `check_asked`. No provided method does it for all of them: what that would call
    // next would demand a rule and places that were tested, and no public call demands anything.
    fn mark(&self, rule: usize, values: &[u8], marks: &mut [u8]) -> Result<Answer, Refusal>
        ensures answer { numbered result ≡ mark_reply (meaning self.now) rule values.now (length marks.old) }
        ensures after { marks.new ≡ mark_place (meaning self.now) rule values.now marks.old };
}
