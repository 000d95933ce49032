// Backjumps: at a clash the last of its decisions flips, and every decision above the others of the clash is taken back.
ghost use Rattle.std.specs.Prelude.{◌≡◌, ℕ, ◌≤◌, true, List};
ghost use Rattle.option_set.specs.Sets.{member};
ghost use Rattle.bank.specs.Banks.{Bank};
ghost use Rattle.search_theory.specs.Backed.{Clash};
ghost use Rattle.search_theory.specs.Searches.{quest, dead_at, values_from};
ghost use Rattle.trail.specs.View.{trail_of, store_of};
ghost use Rattle.search.specs.Standing.{point_of, Standing, Taken};

use crate::analyze::{denial, highest_level, last_decision};
use crate::search::Search;
use option_set::OptionSet;
use trail::entry::Source;

// A rule is dead, and no decision has part in it: no build keeps the picks, and the search ends.
#[derive(Clone, Copy, Drop)]
pub struct NoDecision;

impl Search {
    // Learns the clause against the clash and jumps back.
    pub(crate) fn backjump(&mut self, clash: OptionSet, width: usize) -> Result<(), NoDecision>
        requires { width ≤ 128 }
        ensures { (B : Bank) (ps : List ℕ) → B.width ≡ width → Standing B ps self.old
            → dead_at B (store_of self.old.learnt) (values_from B.width 0 (trail_of self.old.trail.entries)) ≡ true → Clash B (trail_of self.old.trail.entries) (member clash.members) self.old.trail.depth
            → Taken (quest B ps) (point_of self.old) (point_of self.new) result × Standing B ps self.new }
    {
        let Some(option) = last_decision(&self.trail, clash, width) else {
            return Err(NoDecision);
        };
        let rest = clash.without(OptionSet::empty().insert(option));
        let level = highest_level(&self.trail, rest, width);
        self.learnt.push(denial(&self.trail, clash, width));
        self.trail.cut(level);
        self.trail.imply(option, true, Source::Learnt(0), rest);
        Ok(())
    }
}
