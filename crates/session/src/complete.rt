// Completes the picks to the first build that meets every rule: `complete` begins a search, `resume` goes on with the open one.
ghost use Rattle.std.specs.Prelude.{◌≡◌, ◌≤◌, true, length, OnErr};
ghost use Rattle.builds.specs.Builds.{first_build};
ghost use Rattle.search_theory.specs.Orders.{fulfils};
ghost use Rattle.search_theory.specs.Trails.{read};
ghost use Rattle.search_theory.specs.Searches.{quest, Search};
ghost use Rattle.search_theory.specs.Calls.{refusal, Does, complete as complete_call, continue as continue_call};
ghost use Rattle.trail.specs.View.{trail_of};
ghost use Rattle.search.specs.Standing.{point_of, end_by};
ghost use Rattle.session.specs.View.{state_of};
ghost use Rattle.bank.specs.Asked.{cause_of};
ghost use Rattle.session.specs.Completing.{filled, place_after, stays_open, completion_reply, FirstFound};

use crate::completion::{Completion, Verdict};
use crate::session::Session;
use bank::refusal::Refusal;
use bank::rule_bank::RuleBank;

// No call may take more steps than this, so that the steps of a whole session stay countable.
pub const MOST_STEPS: u64 = 1 << 62;

impl<B: RuleBank> Session<B> {
    // Goes on with the open search, and hands out the build. Only a search that is out of budget stays open.
    fn search_on(&mut self, budget: u64, place: &mut [u8]) -> Completion
        requires going { self.old.searching ≡ true }
        requires room { (B.meaning self.old.bank).width ≤ length place.old }
        ensures place { place.new ≡ filled (B.meaning self.old.bank).width result.answer (read (B.meaning self.old.bank).width (trail_of self.new.search.trail.entries)) place.old }
        ensures picks { self.new.picks ≡ self.old.picks }
        ensures bank { self.new.bank ≡ self.old.bank }
        ensures searching { self.new.searching ≡ stays_open result.answer }
        ensures searches { Search (quest (B.meaning self.old.bank) (state_of self.old).picks) budget (point_of self.old.search) result.steps (point_of self.new.search) (end_by result.answer (read (B.meaning self.old.bank).width (trail_of self.new.search.trail.entries))) }
    {
        let completion = self.search.run(&self.bank, budget);
        self.searching = completion.answer == Verdict::Spent;
        if completion.answer == Verdict::Build {
            self.search.trail.write_build(self.bank.width(), place);
        }
        completion
    }

    // Begins a new search from the picks; an open one is given up. Not one function with `resume`: they refuse different things,
    // and share `search_on`.
    pub fn complete(&mut self, budget: u64, place: &mut [u8]) -> Result<Completion, Refusal>
        ensures refusal { cause_of result ≡ refusal (B.meaning self.old.bank).width (state_of self.old) (complete_call budget (length place.old)) }
        ensures refused { OnErr result (self.new ≡ self.old) }
        ensures place { place.new ≡ place_after (B.meaning self.old.bank).width result (read (B.meaning self.old.bank).width (trail_of self.new.search.trail.entries)) place.old }
        ensures picks { self.new.picks ≡ self.old.picks }
        ensures bank { self.new.bank ≡ self.old.bank }
        ensures does { Does (B.meaning self.old.bank) (state_of self.old) (complete_call budget (length place.old)) (completion_reply (B.meaning self.old.bank).width result place.new) (state_of self.new) }
        ensures first { FirstFound (B.meaning self.old.bank).width (first_build (B.meaning self.old.bank).width (fulfils (B.meaning self.old.bank) (state_of self.old).picks)) result place.old place.new }
    {
        if budget > MOST_STEPS {
            return Err(Refusal::BudgetTooLarge);
        }
        if place.len() < self.bank.width() {
            return Err(Refusal::ShortPlace);
        }
        self.search.trail.begin(&self.picks);
        self.searching = true;
        Ok(self.search_on(budget, place))
    }

    // Goes on with the open search, with a budget of its own.
    pub fn resume(&mut self, budget: u64, place: &mut [u8]) -> Result<Completion, Refusal>
        ensures refusal { cause_of result ≡ refusal (B.meaning self.old.bank).width (state_of self.old) (continue_call budget (length place.old)) }
        ensures refused { OnErr result (self.new ≡ self.old) }
        ensures place { place.new ≡ place_after (B.meaning self.old.bank).width result (read (B.meaning self.old.bank).width (trail_of self.new.search.trail.entries)) place.old }
        ensures picks { self.new.picks ≡ self.old.picks }
        ensures bank { self.new.bank ≡ self.old.bank }
        ensures does { Does (B.meaning self.old.bank) (state_of self.old) (continue_call budget (length place.old)) (completion_reply (B.meaning self.old.bank).width result place.new) (state_of self.new) }
        ensures first { FirstFound (B.meaning self.old.bank).width (first_build (B.meaning self.old.bank).width (fulfils (B.meaning self.old.bank) (state_of self.old).picks)) result place.old place.new }
    {
        if budget > MOST_STEPS {
            return Err(Refusal::BudgetTooLarge);
        }
        if !self.searching {
            return Err(Refusal::NoOpenSearch);
        }
        if place.len() < self.bank.width() {
            return Err(Refusal::ShortPlace);
        }
        Ok(self.search_on(budget, place))
    }
}
