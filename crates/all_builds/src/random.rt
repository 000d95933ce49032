// Pseudo-random numbers from a seed, so that whatever was tried can be tried again: splitmix64, which needs no state but a number.
ghost use Rattle.std.specs.Prelude.{◌<◌, max};

#[derive(Clone, Copy, Drop)]
pub struct Random {
    state: u64,
}

impl Random {
    pub fn new(seed: u64) -> Random {
        Random { state: seed }
    }

    // The next 64 bits.
    fn bits(&mut self) -> u64 {
        self.state = self.state.wrapping_add(0x9e37_79b9_7f4a_7c15);
        let mut bits = self.state;
        bits = (bits ^ (bits >> 30)).wrapping_mul(0xbf58_476d_1ce4_e5b9);
        bits = (bits ^ (bits >> 27)).wrapping_mul(0x94d0_49bb_1331_11eb);
        bits ^ (bits >> 31)
    }

    // One of the numbers below `n`; 0 where there is none.
    pub fn below(&mut self, n: u32) -> u32
        ensures { result < max 1 n }
    {
        (self.bits() % n.max(1) as u64) as u32
    }

    // One of so many places; 0 where there is none.
    pub fn place(&mut self, n: usize) -> usize
        ensures { result < max 1 n }
    {
        (self.bits() % n.max(1) as u64) as usize
    }

    // Yes in so many of a hundred cases.
    pub fn chance(&mut self, percent: u32) -> bool {
        self.below(100) < percent
    }

    // 0 or 1.
    pub fn bit(&mut self) -> u8 {
        self.below(2) as u8
    }

    // One of the items, if there is one.
    pub fn one_of<T: Copy>(&mut self, items: &[T]) -> Option<T> {
        let at = self.place(items.len());
        items.get(at).copied()
    }
}
