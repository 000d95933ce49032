// What follows for a session from the calls alone: the picks in force, whether a search is open and what it was given, and
// with which number the next call is refused. Worked out from docs/RULES.md and docs/REFUSALS.md.
use crate::values::{ALL_OPEN, OPEN, Values, value_of, with_value};
use replay::call::Call;

// No call may be given a larger budget.
pub const LARGEST_BUDGET: u64 = 1 << 62;

#[derive(Clone, Copy, Drop)]
pub struct Ledger {
    pub width: usize,
    // a values table: 2 where there is no pick
    pub picks: Values,
    // whether a search is open
    pub open: bool,
    // the budgets and the steps of the completion begun last
    pub given: u64,
    pub steps: u64,
}

// 2 to the power of n.
fn power_of_two(n: usize) -> u64 {
    (0..n).fold(1, |power: u64, _| power.saturating_mul(2))
}

impl Ledger {
    // A new session's.
    pub fn new(width: usize) -> Ledger {
        Ledger {
            width,
            picks: ALL_OPEN,
            open: false,
            given: 0,
            steps: 0,
        }
    }

    pub fn is_picked(&self, option: usize) -> bool {
        value_of(&self.picks, option) != OPEN
    }

    // How many options have no pick.
    pub fn unpicked(&self) -> usize {
        (0..self.width)
            .filter(|option| !self.is_picked(*option))
            .count()
    }

    // A completion with budgets of so many steps in all finishes.
    pub fn enough(&self) -> u64 {
        power_of_two(self.unpicked().saturating_add(1)).saturating_sub(1)
    }

    // A question about one option with a budget of so many steps finishes.
    pub fn enough_to_force(&self) -> u64 {
        power_of_two(self.unpicked().saturating_add(2)).saturating_sub(2)
    }

    fn pick_refusal(&self, option: usize, value: u8) -> Option<u8> {
        if option >= self.width {
            Some(1)
        } else if value > 1 {
            Some(2)
        } else if self.is_picked(option) {
            Some(3)
        } else {
            None
        }
    }

    fn release_refusal(&self, option: usize) -> Option<u8> {
        if option >= self.width {
            Some(1)
        } else if !self.is_picked(option) {
            Some(4)
        } else {
            None
        }
    }

    fn completion_refusal(&self, budget: u64, room: usize, may_go_on: bool) -> Option<u8> {
        if budget > LARGEST_BUDGET {
            Some(5)
        } else if !may_go_on {
            Some(6)
        } else if room < self.width {
            Some(8)
        } else {
            None
        }
    }

    fn forced_refusal(&self, option: usize, budget: u64) -> Option<u8> {
        if option >= self.width {
            Some(1)
        } else if budget > LARGEST_BUDGET {
            Some(5)
        } else {
            None
        }
    }

    // The number with which the call is refused, if it is.
    pub fn refusal(&self, call: Call) -> Option<u8> {
        match call {
            Call::Pick { option, value } => self.pick_refusal(option, value),
            Call::Release { option } => self.release_refusal(option),
            Call::Complete { budget, room } => self.completion_refusal(budget, room, true),
            Call::Resume { budget, room } => self.completion_refusal(budget, room, self.open),
            Call::Forced { option, budget } => self.forced_refusal(option, budget),
            Call::Forget => None,
        }
    }

    // Notes a call that was performed. Each closes the open search; a completion that is spent opens it again.
    pub fn note(&mut self, call: Call) {
        self.open = false;
        match call {
            Call::Pick { option, value } => self.picks = with_value(&self.picks, option, value),
            Call::Release { option } => self.picks = with_value(&self.picks, option, OPEN),
            Call::Complete { budget, .. } => {
                self.given = budget;
                self.steps = 0;
            }
            Call::Resume { budget, .. } => self.given = self.given.saturating_add(budget),
            Call::Forced { .. } | Call::Forget => {}
        }
    }
}
