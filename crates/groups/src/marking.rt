// The marks of one group: how many of its options are taken and can be taken decides everything.
ghost use Rattle.std.specs.Prelude.{◌≡◌, ℕ, ◌<◌, ◌≤◌, true, length, ◌==◌, slice_index};
ghost use Rattle.std.specs.List.{All, count_by};
ghost use Rattle.builds.specs.Values.{up_to};
ghost use Rattle.builds.specs.Answers.{answer_of};
ghost use Rattle.bank.specs.Marking.{heard, noted};
ghost use Rattle.option_set.specs.Sets.{member};
ghost use Rattle.groups.specs.Group.{rule_meets, among, all_below};
ghost use Rattle.groups.specs.Table.{rule_of};
ghost use Rattle.groups.specs.Tally.{settled};

use crate::group::Group;
use bank::refusal::Answer;
use option_set::OptionSet;

// How many of the options have the value.
pub(crate) fn holding(options: &[u8], values: &[u8], value: u8) -> usize
    requires { All (λ o. o < length values.now) options.now }
    ensures value { result ≡ count_by (λ o. slice_index values.now o == value) options.now }
    ensures bound { result ≤ length options.now }
{
    options
        .iter()
        .filter(|option| values[**option as usize] == value)
        .count()
}

// Gives each open one of the options the value.
pub(crate) fn settle(options: &[u8], value: u8, marks: &mut [u8])
    requires { all_below (length marks.old) options.now ≡ true }
    ensures { marks.new ≡ settled value options.now marks.old }
{
    for option in options {
        if marks[*option as usize] == 2 {
            marks[*option as usize] = value;
        }
    }
}

impl Group {
    // The options as a set.
    pub(crate) fn reads(&self) -> OptionSet
        ensures { (o : ℕ) → o < 128 → member result.members o ≡ among (rule_of self.now).options o }
    {
        OptionSet::of(self.options())
    }

    // Marks the group. `values` and `marks` are the options' places, no more and no less.
    #[inline(always)]
    #[tactic(auto, using(crate::proofs::Marked::marked))]
    pub(crate) fn mark(&self, values: &[u8], marks: &mut [u8]) -> Answer
        requires inside { all_below (length values.now) (rule_of self.now).options ≡ true }
        requires room { length marks.old ≡ length values.now }
        requires small { up_to 2 values.now ≡ true }
        ensures value { result ≡ heard (answer_of (length values.now) (rule_meets (rule_of self.now)) values.now) }
        ensures after { marks.new ≡ noted (answer_of (length values.now) (rule_meets (rule_of self.now)) values.now) marks.old }
    {
        let options = self.options();
        let lo = self.lo as usize;
        let hi = self.hi as usize;
        let taken = holding(options, values, 1);
        let possible = options.len() - holding(options, values, 0);
        if taken > hi || possible < lo {
            return Answer::Dead;
        }
        // No more may be taken, or all that can be taken are needed: both hold only where no option of the group is open.
        let full = taken == hi;
        let scarce = possible == lo;
        marks.copy_from_slice(values);
        if full {
            settle(options, 0, marks);
        } else if scarce {
            settle(options, 1, marks);
        }
        Answer::Live
    }
}
