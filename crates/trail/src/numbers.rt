// Picks and values told as numbers, as a values table has them: every byte reads as something, so no caller has to look at it first.
ghost use Rattle.std.specs.Prelude.{◌≡◌, Some, None, cond, map, ◌==◌, nat_lt, slice_set};
ghost use Rattle.trail.specs.Beginning.{Begun};
ghost use Rattle.trail.specs.Rows.{start_row, rule_row};

use crate::entry::Source;
use crate::trail::Trail;
use option_set::OptionSet;
use std::array;

// The pick that a number tells: 0 and 1 are picks, and every other number is none.
fn pick_of(number: u8) -> Option<bool>
    ensures { result ≡ cond (nat_lt number 2) (Some (number == 1)) None }
{
    match number {
        0 => Some(false),
        1 => Some(true),
        _ => None,
    }
}

impl Trail {
    // Starts anew from picks told as numbers.
    pub fn begin_numbers(&mut self, picks: &[u8; 128])
        ensures table { self.new.entries ≡ map start_row picks.now }
        ensures depth { self.new.depth ≡ 0 }
        ensures begun { Begun picks.now self.new }
    {
        let told = array::from_fn(|option| pick_of(picks[option]));
        self.begin(&told);
    }

    // As `imply`, of a value told as a number: every number but 1 reads as 0.
    pub fn imply_number(&mut self, option: usize, value: u8, source: Source, support: OptionSet)
        ensures table { self.new.entries ≡ slice_set self.old.entries option (rule_row (value == 1) self.old.depth source support) }
        ensures depth { self.new.depth ≡ self.old.depth }
    {
        self.imply(option, value == 1, source, support);
    }
}
