// Fresh sessions that are told only the picks in force.
use crate::judge::Judge;
use crate::ledger::Ledger;
use crate::oracle::Oracle;
use crate::single::BLANK;
use crate::values::{OPEN, Values};
use anyhow::ensure;
use bank::rule_bank::RuleBank;
use session::session::Session;

pub fn tell<'b, B: RuleBank>(b: &'b B, picks: &Values) -> anyhow::Result<Session<&'b B>> {
    let mut session = Session::new(b);
    for (option, value) in picks.iter().enumerate() {
        if *value != OPEN {
            let reply = session.pick(option, *value);
            ensure!(
                reply == Ok(()),
                "a fresh session refuses the pick {option} {value}: {reply:?}"
            );
        }
    }
    Ok(session)
}

// The judge of such a session.
pub fn judge_of<'o>(oracle: &'o Oracle, picks: &Values) -> Judge<'o> {
    let ledger = Ledger {
        picks: *picks,
        ..Ledger::new(oracle.width())
    };
    Judge {
        oracle,
        ledger,
        blank: BLANK,
    }
}
