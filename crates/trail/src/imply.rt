// Implications: a value that a rule gives, the bank's or a learnt one.
ghost use Rattle.std.specs.Prelude.{◌≡◌, slice_set};
ghost use Rattle.trail.specs.Rows.{rule_row};

use crate::entry::{Entry, Source};
use crate::trail::Trail;
use option_set::OptionSet;

impl Trail {
    // Gives the option the value that a rule marks, at the present level, with the picks and decisions that it rests on;
    // no other entry changes, and none at all where the table has no such option.
    pub fn imply(&mut self, option: usize, value: bool, source: Source, support: OptionSet)
        ensures table { self.new.entries ≡ slice_set self.old.entries option (rule_row value self.old.depth source support) }
        ensures depth { self.new.depth ≡ self.old.depth }
    {
        let level = self.depth;
        self.write(
            option,
            Entry::Implied {
                value,
                level,
                source,
                support,
            },
        );
    }
}
