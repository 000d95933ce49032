// Takes a pick back.
ghost use Rattle.std.specs.Prelude.{◌≡◌, OnErr};
ghost use Rattle.search_theory.specs.Calls.{refusal, Does, release as release_call};
ghost use Rattle.search_theory.specs.Runs.{next_picks};
ghost use Rattle.session.specs.View.{state_of};
ghost use Rattle.bank.specs.Asked.{cause_of};
ghost use Rattle.session.specs.Replies.{done_of};

use crate::session::Session;
use bank::refusal::Refusal;
use bank::rule_bank::RuleBank;

impl<B: RuleBank> Session<B> {
    // Makes a picked option unpicked, and closes the open search.
    pub fn release(&mut self, option: usize) -> Result<(), Refusal>
        ensures refusal { cause_of result ≡ refusal (B.meaning self.old.bank).width (state_of self.old) (release_call option) }
        ensures refused { OnErr result (self.new ≡ self.old) }
        ensures picks { (state_of self.new).picks ≡ next_picks (B.meaning self.old.bank).width (state_of self.old).picks (release_call option) }
        ensures bank { self.new.bank ≡ self.old.bank }
        ensures does { Does (B.meaning self.old.bank) (state_of self.old) (release_call option) (done_of result) (state_of self.new) }
    {
        if option >= self.bank.width() {
            return Err(Refusal::OptionOutside);
        }
        // copied out first (c): a direct call writes the place back into the session, whose invariant then did not prove; a local table and pick_text's have none
        let picked = self.picks[option];
        if picked.is_none() {
            return Err(Refusal::NotPicked);
        }
        self.picks[option] = None;
        self.searching = false;
        Ok(())
    }
}
