// The search: step by step, until all options are valued and no rule is dead, no decision is left to take back, or the budget is spent.
// Clauses here and in session say what a trail reads by `read width (trail_of ..)`, whole: the width is the bank's and the trail each search's, so that a name for both would hide one.
ghost use Rattle.std.specs.Prelude.{ℕ, List};
ghost use Rattle.search_theory.specs.Trails.{read};
ghost use Rattle.search_theory.specs.Searches.{quest, Search as Searched};
ghost use Rattle.search_theory.specs.Held.{StoreSound};
ghost use Rattle.trail.specs.View.{trail_of, store_of};
ghost use Rattle.search.specs.Standing.{point_of, Standing, end_by};

use crate::backjump::NoDecision;
use crate::verdict::{Counted, Verdict};
use bank::rule_bank::RuleBank;
use quiet::quiet::Quiet;
use quiet::readers::Readers;
use trail::learnt::Learnt;
use trail::trail::Trail;

// Where a search stands: the trail, and what was learnt so far.
#[derive(Drop)]
pub struct Search {
    pub trail: Trail,
    pub learnt: Learnt,
}

impl Search {
    // Goes on for at most `budget` steps: how the search ended, and how many steps it took. The conflict that ends it is a step too.
    pub fn run<B: RuleBank>(&mut self, b: &B, budget: u64) -> Counted<Verdict>
        ensures searches { (ps : List ℕ) → Standing (B.meaning b.now) ps self.old
            → Searched (quest (B.meaning b.now) ps) budget (point_of self.old) result.steps (point_of self.new) (end_by result.answer (read (B.meaning b.now).width (trail_of self.new.trail.entries))) }
        ensures stands { (ps : List ℕ) → Standing (B.meaning b.now) ps self.old → Standing (B.meaning b.now) ps self.new }
        ensures learns { (ps : List ℕ) → Standing (B.meaning b.now) ps self.old → StoreSound (B.meaning b.now) (store_of self.new.learnt) }
    {
        let readers = Readers::of(b);
        let mut quiet = Quiet::none();
        let mut steps: u64 = 0;
        while let Some(next) = self.next_step(b, &readers, &mut quiet) {
            if steps == budget {
                return Counted {
                    answer: Verdict::Spent,
                    steps,
                };
            }
            steps += 1;
            if let Err(NoDecision) = self.take_step(b, next) {
                return Counted {
                    answer: Verdict::NoBuild,
                    steps,
                };
            }
        }
        Counted {
            answer: Verdict::Build,
            steps,
        }
    }
}
