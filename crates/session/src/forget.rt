// Forgets what the searches learnt. No answer depends on it; the next search only takes longer.
ghost use Rattle.std.specs.Prelude.{◌≡◌};
ghost use Rattle.search_theory.specs.Calls.{Does, done, forget as forget_call};
ghost use Rattle.session.specs.View.{state_of};

use crate::session::Session;
use bank::rule_bank::RuleBank;

impl<B: RuleBank> Session<B> {
    // Empties the store of learnt rules. The open search may lean on them, so it is closed.
    pub fn forget(&mut self)
        ensures picks { self.new.picks ≡ self.old.picks }
        ensures bank { self.new.bank ≡ self.old.bank }
        ensures does { Does (B.meaning self.old.bank) (state_of self.old) forget_call done (state_of self.new) }
    {
        self.search.learnt.clear();
        self.searching = false;
    }
}
