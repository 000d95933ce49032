// Decisions. The lowest open option is tried at 0 first, so that the first full trail without a dead rule is the first build.
ghost use Rattle.std.specs.Prelude.{◌≡◌, ◌+◌, min, MatchOption, slice_set};
ghost use Rattle.search_theory.specs.Trails.{Full};
ghost use Rattle.trail.specs.View.{trail_of};
ghost use Rattle.trail.specs.Rows.{decision_row, Lowest};

use crate::entry::Entry;
use crate::trail::Trail;

impl Trail {
    // The lowest open option of the first `width`.
    pub fn lowest_open(&self, width: usize) -> Option<usize>
        ensures { MatchOption result (Full width (trail_of self.now.entries)) (Lowest width (trail_of self.now.entries)) }
    {
        (0..width).find(|option| self.entry(*option).is_none())
    }

    // Gives the option 0, one level deeper; no other entry changes, and none at all where the table has no such option.
    // There are no more levels than options, so the level never meets its largest value.
    pub fn decide(&mut self, option: usize)
        ensures table { self.new.entries ≡ slice_set self.old.entries option (decision_row (min (self.old.depth + 1) 255)) }
        ensures depth { self.new.depth ≡ min (self.old.depth + 1) 255 }
    {
        self.depth = self.depth.saturating_add(1);
        self.write(option, Entry::Decided(self.depth));
    }
}
