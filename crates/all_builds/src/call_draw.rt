// Draws the next call of a session: all six, each refusal's causes among them, and budgets about the bounds.
use crate::ledger::{LARGEST_BUDGET, Ledger};
use crate::random::Random;
use replay::call::Call;

impl Ledger {
    // An option; now and then one that there is not.
    fn draw_option(&self, random: &mut Random) -> usize {
        match random.below(24) {
            0 => self.width,
            1 => random
                .one_of(&[127, 128, 1 << 32, usize::MAX])
                .unwrap_or(128),
            _ => random.place(self.width),
        }
    }

    fn draw_value(&self, random: &mut Random) -> u8 {
        match random.below(24) {
            0 => 2,
            1 => random.one_of(&[3, 128, 255]).unwrap_or(2),
            _ => random.bit(),
        }
    }

    // Budgets from none to more than is allowed, and about `enough`, which is sure to suffice.
    fn draw_budget(&self, random: &mut Random, enough: u64) -> u64 {
        match random.below(8) {
            0 => random
                .one_of(&[0, LARGEST_BUDGET, LARGEST_BUDGET + 1, u64::MAX])
                .unwrap_or(0),
            1 => enough,
            2 => enough.saturating_sub(1),
            3 => enough.saturating_mul(2),
            4 => random.place(self.width.saturating_mul(2)) as u64,
            _ => u64::from(random.below(4)),
        }
    }

    fn draw_room(&self, random: &mut Random) -> usize {
        match random.below(12) {
            0 => random.place(self.width),
            1 => random.one_of(&[8, 127, 128, 129, usize::MAX]).unwrap_or(8),
            2 => self.width.saturating_add(1),
            _ => self.width,
        }
    }

    pub fn draw_call(&self, random: &mut Random) -> Call {
        let kind = random.below(20);
        let option = self.draw_option(random);
        let still_enough = self.enough().saturating_sub(self.given);
        match kind {
            0..5 => Call::Pick {
                option,
                value: self.draw_value(random),
            },
            5..8 => Call::Release { option },
            8..11 => Call::Forced {
                option,
                budget: self.draw_budget(random, self.enough_to_force()),
            },
            11..15 if self.open => Call::Resume {
                budget: self.draw_budget(random, still_enough),
                room: self.draw_room(random),
            },
            11..18 => Call::Complete {
                budget: self.draw_budget(random, self.enough()),
                room: self.draw_room(random),
            },
            18 => Call::Resume {
                budget: self.draw_budget(random, still_enough),
                room: self.draw_room(random),
            },
            _ => Call::Forget,
        }
    }
}
