// Asks whether the rules and the picks leave an option only one value.
// One search finds a build, and a second one looks for a build with the other value there.
ghost use Rattle.std.specs.Prelude.{◌≡◌, false, map, OnErr};
ghost use Rattle.search_theory.specs.Trails.{start, read};
ghost use Rattle.search_theory.specs.Searches.{quest, Search};
ghost use Rattle.search_theory.specs.Calls.{refusal, Does, forced as forced_call};
ghost use Rattle.search_theory.specs.Values.{value_number};
ghost use Rattle.trail.specs.View.{trail_of, store_of};
ghost use Rattle.search.specs.Standing.{point_of, end_by};
ghost use Rattle.session.specs.View.{state_of};
ghost use Rattle.bank.specs.Asked.{cause_of};
ghost use Rattle.session.specs.Forcing.{second_of, forced_reply, ForcedFound};

use crate::complete::MOST_STEPS;
use crate::forcing::{Force, Forced};
use crate::session::Session;
use bank::refusal::Refusal;
use bank::rule_bank::RuleBank;
use search::verdict::{Counted, Verdict};

// The answer after a build with this value, by how the search for one with the other value ended.
fn by_second(second: Verdict, taken: bool) -> Force
    ensures { result ≡ second_of second taken }
{
    match second {
        Verdict::Build => Force::Open,
        Verdict::NoBuild => Force::Only(taken),
        Verdict::Spent => Force::Spent,
    }
}

impl<B: RuleBank> Session<B> {
    // Searches from these picks. The session's own stay as they are, and no search is open afterwards.
    fn search_with(&mut self, picks: [Option<bool>; 128], budget: u64) -> Counted<Verdict>
        ensures picks { self.new.picks ≡ self.old.picks }
        ensures bank { self.new.bank ≡ self.old.bank }
        ensures searching { self.new.searching ≡ false }
        ensures searches { Search (quest (B.meaning self.old.bank) (map value_number picks)) budget (start (map value_number picks) (store_of self.old.search.learnt)) result.steps (point_of self.new.search) (end_by result.answer (read (B.meaning self.old.bank).width (trail_of self.new.search.trail.entries))) }
    {
        self.searching = false;
        self.search.trail.begin(&picks);
        self.search.run(&self.bank, budget)
    }

    // What all builds that fulfil the order give the option. The open search is closed, and none of these stays open.
    pub fn forced(&mut self, option: usize, budget: u64) -> Result<Forced, Refusal>
        ensures refusal { cause_of result ≡ refusal (B.meaning self.old.bank).width (state_of self.old) (forced_call option budget) }
        ensures refused { OnErr result (self.new ≡ self.old) }
        ensures picks { self.new.picks ≡ self.old.picks }
        ensures bank { self.new.bank ≡ self.old.bank }
        ensures does { Does (B.meaning self.old.bank) (state_of self.old) (forced_call option budget) (forced_reply result) (state_of self.new) }
        ensures right { ForcedFound (B.meaning self.old.bank) (state_of self.old).picks option result }
    {
        if option >= self.bank.width() {
            return Err(Refusal::OptionOutside);
        }
        if budget > MOST_STEPS {
            return Err(Refusal::BudgetTooLarge);
        }
        let mut picks = self.picks;
        let first = self.search_with(picks, budget);
        let (answer, steps) = match first.answer {
            Verdict::NoBuild => (Force::NoBuild, first.steps),
            Verdict::Spent => (Force::Spent, first.steps),
            Verdict::Build => {
                let taken = self.search.trail.value(option).unwrap_or(false);
                if picks[option].is_some() {
                    (Force::Only(taken), first.steps)
                } else {
                    picks[option] = Some(!taken);
                    let second = self.search_with(picks, budget.saturating_sub(first.steps));
                    (
                        by_second(second.answer, taken),
                        first.steps.saturating_add(second.steps),
                    )
                }
            }
        };
        Ok(Counted { answer, steps })
    }
}
