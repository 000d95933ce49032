// The diagram bank: rows in memory that the caller lends, and the roots, of which each is a rule.
// What every table keeps stands in the type: no bank in hand has an arrow that breaks the rules, whoever writes its fields.
ghost use Rattle.std.specs.Prelude.{◌≡◌, ◌<◌, ◌≤◌, length};
ghost use Rattle.diagrams.specs.Rows.{Lawful};
ghost use Rattle.diagrams.specs.Roots.{RootedAll, ReachingAll};
ghost use Rattle.diagrams.specs.Causes.{room_of};

use crate::row::{Root, Row};
use arrayvec::ArrayVec;

#[derive(Drop)]
pub struct Diagrams<'a> {
    pub width: usize,
    // a slice and a count: the rows lie in memory that the caller lends, since nothing here allocates
    pub rows: &'a mut [Row],
    pub used: usize,
    pub roots: ArrayVec<Root, 128>,
    ghost sized: { (1 ≤ width) × (width ≤ 128) × (used ≤ 2048) × (length roots.items ≤ 128) },
    ghost within: { used ≤ length rows.now },
    ghost lawful: { Lawful width rows.now used },
    ghost rooted: { RootedAll used roots.items },
    ghost reached: { ReachingAll rows.now roots.items },
}

impl<'a> Diagrams<'a> {
    // How many rows the lent memory has room for.
    pub(crate) fn room(&self) -> usize
        ensures { result ≡ room_of self.now.rows.now }
    {
        self.rows.len().min(2048)
    }
}
