// Opening a table: the whole of it is checked first, so that a refusal leaves the bank as it stood.
ghost use Rattle.std.specs.Prelude.{◌≡◌, ℕ, ◌+◌, ◌<◌, ◌≤◌, [], length, OnErr, OnOk, slice_index};
ghost use Rattle.bank.specs.Numbers.{located};
ghost use Rattle.diagrams.specs.Rows.{Lawful};
ghost use Rattle.diagrams.specs.Roots.{RootedAll, ReachingAll};
ghost use Rattle.diagrams.specs.Causes.{room_of, open_cause};
ghost use Rattle.diagrams.specs.Filled.{root_nodes, front_replaced};

use crate::check::Unchecked;
use crate::reading::reading_sets;
use crate::row::{Root, Row};
use crate::table::Diagrams;
use arrayvec::ArrayVec;
use bank::table_fault::TableFault;

impl<'a> Diagrams<'a> {
    // A bank of one option over the lent memory, without a row or a root.
    pub fn empty(rows: &'a mut [Row]) -> Diagrams<'a>
        ensures sizes { (result.width ≡ 1) × (result.used ≡ 0) × (result.roots.items ≡ []) }
        ensures rows { result.rows.now ≡ rows.old }
        ensures lent { result.rows.ghost_name ≡ rows.entry.ghost_name }
    {
        Diagrams {
            width: 1,
            rows,
            used: 0,
            roots: ArrayVec::new(),
        }
    }

    // Takes over lawful rows for which there is room; the roots are gone then, and rows after them stay.
    fn take_rows(&mut self, width: usize, rows: &[Row])
        requires width { (1 ≤ width) × (width ≤ 128) }
        requires room { (length rows.now ≤ length self.old.rows.now) × (length rows.now ≤ 2048) }
        requires lawful { Lawful width rows.now (length rows.now) }
        ensures width { self.new.width ≡ width }
        ensures used { self.new.used ≡ length rows.now }
        ensures rows { self.new.rows.now ≡ front_replaced rows.now self.old.rows.now }
        ensures roots { self.new.roots.items ≡ [] }
        ensures lent { self.new.rows.ghost_name ≡ self.old.rows.ghost_name }
    {
        self.roots.clear();
        self.rows[..rows.len()].copy_from_slice(rows);
        self.width = width;
        self.used = rows.len();
    }

    // The roots of these nodes, each with the set of the options that it reads.
    fn roots_of(&self, nodes: &[u32]) -> ArrayVec<Root, 128>
        requires few { length nodes.now ≤ 128 }
        requires nodes { (i : ℕ) → i < length nodes.now → slice_index nodes.now i < self.now.used + 2 }
        ensures nodes { root_nodes result.items ≡ nodes.now }
        ensures rooted { RootedAll self.now.used result.items }
        ensures reached { ReachingAll self.now.rows.now result.items }
    {
        let sets = reading_sets(self, self.used);
        let mut roots = ArrayVec::new();
        for node in nodes {
            roots.push(Root {
                node: *node,
                reads: sets[*node as usize],
            });
        }
        roots
    }

    // Fills the bank with a table of its own width, rows and roots. A table that breaks a rule is refused, and nothing has changed then.
    pub fn open(&mut self, width: usize, rows: &[Row], roots: &[u32]) -> Result<(), TableFault>
        ensures answer { located result ≡ open_cause (room_of self.old.rows.now) width rows.now roots.now }
        ensures refused { OnErr result (self.new ≡ self.old) }
        ensures sizes { OnOk result ((self.new.width ≡ width) × (self.new.used ≡ length rows.now) × (length self.new.roots.items ≡ length roots.now)) }
        ensures rows { OnOk result (self.new.rows.now ≡ front_replaced rows.now self.old.rows.now) }
        ensures roots { OnOk result (root_nodes self.new.roots.items ≡ roots.now) }
        ensures lent { self.new.rows.ghost_name ≡ self.old.rows.ghost_name }
    {
        let given = Unchecked { width, rows, roots };
        given.check(self.room())?;
        self.take_rows(width, rows);
        self.roots = self.roots_of(roots);
        Ok(())
    }
}
