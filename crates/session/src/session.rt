// A session: one bank, the picks, where its last search stands with what was learnt, and whether that search is open.
// The calls on it stand in files of their own.
// Several of them state bank, picks, refusal, refused and does anew: each relates the session before a call to that after it, which no type holds (d).
ghost use Rattle.session.specs.Stands.{Stands, GoesOn};

use bank::rule_bank::RuleBank;
use search::search::Search;
use trail::learnt::Learnt;
use trail::trail::Trail;

// `searching` is a flag and no `Option` of a trail, since a call's contract tells where its search ended also where that closes it.
#[derive(Drop)]
pub struct Session<B: RuleBank> {
    pub(crate) bank: B,
    pub(crate) picks: [Option<bool>; 128],
    pub(crate) search: Search,
    pub(crate) searching: bool,
    ghost stands: { Stands (B.meaning bank) picks search searching },
    ghost goes_on: { GoesOn (B.meaning bank) picks search searching },
}

impl<B: RuleBank> Session<B> {
    ghost use Rattle.std.specs.Prelude.{◌≡◌};
    ghost use Rattle.search_theory.specs.Runs.{New};
    ghost use Rattle.session.specs.View.{state_of};

    // A session with nothing but the bank.
    pub fn new(bank: B) -> Session<B>
        ensures bank { result.bank ≡ bank }
        ensures new { New (B.meaning bank) (state_of result) }
    {
        Session {
            bank,
            picks: [None; 128],
            search: Search {
                trail: Trail::new(),
                learnt: Learnt::empty(),
            },
            searching: false,
        }
    }
}
