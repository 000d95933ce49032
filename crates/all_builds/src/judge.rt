// Judges the replies of a session, one after the other: each must be the one that the calls so far and all the builds give.
use crate::ledger::Ledger;
use crate::oracle::Oracle;
use crate::values::{Build, OPEN, digits, value_of, with_value};
use anyhow::{bail, ensure};
use bank::refusal::Refusal;
use replay::call::Call;
use replay::reply::Reply;
use session::completion::{Completion, Verdict};
use session::forcing::{Force, Forced};

#[derive(Clone, Copy, Drop)]
pub struct Judge<'o> {
    pub oracle: &'o Oracle,
    pub ledger: Ledger,
    // what a place for a build holds before a call
    pub blank: u8,
}

impl<'o> Judge<'o> {
    // Of a new session over the oracle's bank.
    pub fn new(oracle: &'o Oracle, blank: u8) -> Judge<'o> {
        Judge {
            oracle,
            ledger: Ledger::new(oracle.width()),
            blank,
        }
    }

    // Whether the place holds the build, if there is one, in its first places, and beyond what it held before.
    fn holds(&self, place: &[u8; 128], build: Option<Build>) -> bool {
        place.iter().enumerate().all(|(option, value)| {
            let bit = build.and_then(|build| build.get(option).copied());
            match bit {
                Some(bit) if option < self.oracle.width() => *value == bit as u8,
                _ => *value == self.blank,
            }
        })
    }

    // Spent comes only at the budget and below the bound; a build takes a step for each unpicked option, and none the step that shows it.
    fn completed(
        &mut self,
        budget: u64,
        completion: Completion,
        place: &[u8; 128],
    ) -> anyhow::Result<()> {
        let steps = completion.steps;
        self.ledger.steps = self.ledger.steps.saturating_add(steps);
        self.ledger.open = completion.answer == Verdict::Spent;
        let first = self.oracle.first(&self.ledger.picks);
        let (right, build) = match completion.answer {
            Verdict::Build => {
                let enough = self.ledger.steps >= self.ledger.unpicked() as u64;
                (first.is_some() && enough, first)
            }
            Verdict::NoBuild => (first.is_none() && steps > 0, None),
            Verdict::Spent => (
                steps == budget && self.ledger.given < self.ledger.enough(),
                None,
            ),
        };
        let answer = completion.answer;
        let shown = first.map(|first| digits(&first));
        ensure!(right, "{answer:?} after {steps} steps, first is {shown:?}");
        ensure!(
            self.holds(place, build),
            "{answer:?}, wrong places, first is {shown:?}"
        );
        let all = self.ledger.steps;
        ensure!(
            steps <= budget && all <= self.ledger.enough(),
            "{steps} steps, {all} in all"
        );
        Ok(())
    }

    // Whether some build that meets every rule and keeps every pick has the value there.
    fn occurs(&self, option: usize, value: bool) -> bool {
        let pick = value_of(&self.ledger.picks, option);
        let value = value as u8;
        let narrowed = with_value(&self.ledger.picks, option, value);
        (pick == OPEN || pick == value) && self.oracle.first(&narrowed).is_some()
    }

    fn forced(&self, option: usize, budget: u64, forced: Forced) -> anyhow::Result<()> {
        let zero = self.occurs(option, false);
        let one = self.occurs(option, true);
        let steps = forced.steps;
        let most = self.ledger.enough_to_force();
        let right = match forced.answer {
            Force::Open => zero && one,
            Force::Only(value) => zero != value && one == value,
            Force::NoBuild => !zero && !one,
            Force::Spent => steps == budget && budget < most,
        };
        let answer = forced.answer;
        ensure!(
            right,
            "{answer:?} after {steps} steps, 0 occurs: {zero}, 1 occurs: {one}"
        );
        ensure!(steps <= budget && steps <= most, "{steps} steps");
        Ok(())
    }

    fn performed(&mut self, call: Call, reply: &Reply) -> anyhow::Result<()> {
        self.ledger.note(call);
        match (call, reply) {
            (Call::Pick { .. } | Call::Release { .. } | Call::Forget, Reply::Done) => Ok(()),
            (
                Call::Complete { budget, .. } | Call::Resume { budget, .. },
                Reply::Completed { completion, place },
            ) => self.completed(budget, *completion, place),
            (Call::Forced { option, budget }, Reply::Told(forced)) => self.forced(
                option, budget, *forced,
            ),
            _ => bail!("a reply to another call"),
        }
    }

    // The reply to the next call.
    pub fn reply(&mut self, call: Call, reply: &Result<Reply, Refusal>) -> anyhow::Result<()> {
        let wanted = self.ledger.refusal(call);
        let found = match reply {
            Ok(_) => None,
            Err(refusal) => Some(refusal.number()),
        };
        ensure!(
            found == wanted,
            "the refusal is {found:?}, and should be {wanted:?}"
        );
        match reply {
            Ok(reply) => self.performed(call, reply),
            Err(_) => Ok(()),
        }
    }
}
