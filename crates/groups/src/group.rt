// One group as a table stores it.
ghost use Rattle.std.specs.Prelude.{◌≡◌, ◌≤◌, ◌-◌, true, length, take, drop, replicate};
ghost use Rattle.groups.specs.Group.{distinct};

// At least `lo` and at most `hi` of the first `len` options are to be taken; no option stands twice.
// An array and a length, and no `ArrayVec`: a group is `Copy`, and an `ArrayVec` is not.
// What an `ArrayVec` says by itself stands in ghost fields: there are `len` options, and behind them stand zeros alone, so that a group is its rule.
#[derive(Clone, Copy, Drop)]
pub struct Group {
    pub(crate) lo: u8,
    pub(crate) hi: u8,
    pub(crate) len: u8,
    pub(crate) options: [u8; 32],
    ghost bounds: { (lo ≤ hi) × (hi ≤ len) × (len ≤ 32) },
    ghost counted: { length (take len options) ≡ len },
    ghost blank: { drop len options ≡ replicate (32 - len) 0 },
    ghost different: { distinct (take len options) ≡ true },
}

impl Group {
    // The options of the group.
    pub(crate) fn options(&self) -> &[u8]
        ensures { result.now ≡ take self.now.len self.now.options }
    {
        &self.options[..self.len as usize]
    }
}
