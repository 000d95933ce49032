// Picks an option: from here on every build that counts has this value there.
ghost use Rattle.std.specs.Prelude.{◌≡◌, OnErr};
ghost use Rattle.search_theory.specs.Calls.{refusal, Does, pick as pick_call};
ghost use Rattle.search_theory.specs.Runs.{next_picks};
ghost use Rattle.session.specs.View.{state_of};
ghost use Rattle.bank.specs.Asked.{cause_of};
ghost use Rattle.session.specs.Replies.{done_of};

use crate::session::Session;
use bank::refusal::Refusal;
use bank::rule_bank::RuleBank;

impl<B: RuleBank> Session<B> {
    // Gives an unpicked option this value. An open search was made for other picks, so it is closed.
    // The value is a number, since a caller may hand in a wrong one, which is then refused.
    pub fn pick(&mut self, option: usize, value: u8) -> Result<(), Refusal>
        ensures refusal { cause_of result ≡ refusal (B.meaning self.old.bank).width (state_of self.old) (pick_call option value) }
        ensures refused { OnErr result (self.new ≡ self.old) }
        ensures picks { (state_of self.new).picks ≡ next_picks (B.meaning self.old.bank).width (state_of self.old).picks (pick_call option value) }
        ensures bank { self.new.bank ≡ self.old.bank }
        ensures does { Does (B.meaning self.old.bank) (state_of self.old) (pick_call option value) (done_of result) (state_of self.new) }
    {
        if option >= self.bank.width() {
            return Err(Refusal::OptionOutside);
        }
        if value > 1 {
            return Err(Refusal::PickValue);
        }
        // copied out first (c): a direct call writes the place back into the session, whose invariant then did not prove; a local table and pick_text's have none
        let picked = self.picks[option];
        if picked.is_some() {
            return Err(Refusal::AlreadyPicked);
        }
        self.picks[option] = Some(value == 1);
        self.searching = false;
        Ok(())
    }
}
