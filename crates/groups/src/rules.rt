// The table as a rule bank: its groups are the rules, and each is marked exactly.
ghost use Rattle.arrayvec.specs.ArrayVec.{array_vec_len};
ghost use Rattle.groups.specs.View.{rules_of};
ghost use Rattle.groups.specs.Meaning.{groups_bank, groups_reading, groups_duties, groups_local};

use crate::table::Groups;
use bank::asked::check_asked;
use bank::refusal::{Answer, Refusal};
use bank::rule_bank::RuleBank;
use option_set::OptionSet;

impl RuleBank for Groups {
    ghost meaning = { λ s. groups_bank s.width (array_vec_len s.groups) (rules_of s) };

    ghost duties = { λ s. groups_duties s.width (array_vec_len s.groups) (rules_of s) s.sized.0 s.sized.1 s.sized.2 };

    ghost reading = { λ s. groups_reading s.width (array_vec_len s.groups) (rules_of s) };

    ghost local = { λ s. groups_local s.width (array_vec_len s.groups) (rules_of s) };

    fn width(&self) -> usize {
        self.width
    }

    fn count(&self) -> usize {
        self.groups.len()
    }

    fn reads(&self, rule: usize) -> OptionSet {
        self.groups
            .get(rule)
            .map_or(OptionSet::empty(), |group| group.reads())
    }

    #[inline(always)]
    fn mark(&self, rule: usize, values: &[u8], marks: &mut [u8]) -> Result<Answer, Refusal> {
        let w = self.width;
        let count = self.groups.len();
        check_asked(w, count, rule, values, marks.len())?;
        Ok(self.groups[rule].mark(&values[..w], &mut marks[..w]))
    }
}
