// What the way down from a root has found so far: the nodes that are reached, the values that each option is seen with, and the jumps.
ghost use Rattle.std.specs.Prelude.{◌≡◌, ℕ, ◌<◌, ◌≤◌, true, false, ◌&&◌, ◌||◌, length, slice_index, slice_index_or};
ghost use Rattle.builds.specs.Values.{allows};
ghost use Rattle.builds.specs.Answers.{mark_from};
ghost use Rattle.diagram_theory.specs.Seen.{Marked, Jumped};

use crate::allowed::{may_be_0, may_be_1};

// The values that an option is seen with.
#[derive(Clone, Copy, Default)]
pub(crate) struct Seen {
    pub zero: bool,
    pub one: bool,
}

// A place for each node and for each option.
#[derive(Drop)]
pub(crate) struct Found {
    pub reached: [bool; 2050],
    pub seen: [Seen; 128],
    // for each option, and for the end behind them, where the longest jump that begins there ends: one write for a jump, however long
    pub jumps: [u8; 129],
}

impl Seen {
    // With the values too that the option may have where it is free.
    fn or_free(self, free: bool, value: u8) -> Seen
        ensures left { result.zero ≡ (self.zero || (free && allows value false)) }
        ensures taken { result.one ≡ (self.one || (free && allows value true)) }
    {
        Seen {
            zero: self.zero | (free & may_be_0(value)),
            one: self.one | (free & may_be_1(value)),
        }
    }

    // The mark of the option.
    fn mark(self) -> u8
        ensures { result ≡ mark_from self.zero self.one }
    {
        match (self.zero, self.one) {
            (true, false) => 0,
            (false, true) => 1,
            _ => 2,
        }
    }
}

impl Found {
    ghost use Rattle.diagram_bank.specs.Found.{zeros, ones, all_zeros, all_ones, Nothing};

    pub(crate) fn nothing() -> Found
        ensures { Nothing result }
    {
        Found {
            reached: [false; 2050],
            seen: [Seen::default(); 128],
            jumps: [0; 129],
        }
    }

    // An option is seen with 0 too, with 1 too, or both.
    pub(crate) fn see(&mut self, option: usize, zero: bool, one: bool)
        requires { option < 128 }
        ensures nodes { self.new.reached ≡ self.old.reached }
        ensures jumps { self.new.jumps ≡ self.old.jumps }
        ensures left { Marked zero option (zeros self.old.seen) (zeros self.new.seen) }
        ensures taken { Marked one option (ones self.old.seen) (ones self.new.seen) }
    {
        let seen = &mut self.seen[option];
        seen.zero |= zero;
        seen.one |= one;
    }

    // The options `from` to `to - 1` are jumped over.
    pub(crate) fn jump(&mut self, from: usize, to: usize)
        requires { (from ≤ 128) × (to ≤ 128) }
        ensures nodes { self.new.reached ≡ self.old.reached }
        ensures seen { self.new.seen ≡ self.old.seen }
        ensures jumps { Jumped true from to self.old.jumps self.new.jumps }
    {
        // a test and not `max`: the longest is found early, and a place that is seldom written is read at once
        if (self.jumps[from] as usize) < to {
            self.jumps[from] = to as u8;
        }
    }

    // Writes the mark of each option, as many as there are places.
    pub(crate) fn write_marks(&self, values: &[u8], marks: &mut [u8])
        requires few { length marks.old ≤ 128 }
        requires sized { length values.now ≡ length marks.old }
        ensures { (o : ℕ) → o < length marks.old
            → slice_index marks.new o ≡ mark_from (slice_index_or (all_zeros (length values.now) values.now self.now) o false) (slice_index_or (all_ones (length values.now) values.now self.now) o false) }
    {
        // where the longest jump that begins at the option or before it ends
        let mut end = 0;
        // and not by a `zip` with what is seen, which was tried: with `iter_mut` a proof then knows nothing of what was written
        for (o, mark) in marks.iter_mut().enumerate() {
            end = self.jumps[o].max(end);
            *mark = self.seen[o].or_free(o < end as usize, values[o]).mark();
        }
    }
}
