// Filling a bank row by row and root by root, as a reader of lines does. What is refused leaves the bank as it stood.
ghost use Rattle.std.specs.Prelude.{◌≡◌, ◌+◌, ◌<◌, [], ◌∷◌, ◌++◌, length, OnErr, OnOk, slice_set};
ghost use Rattle.bank.specs.Numbers.{located};
ghost use Rattle.diagrams.specs.Rows.{RowLawful};
ghost use Rattle.diagrams.specs.Causes.{room_of, row_cause, root_cause};
ghost use Rattle.diagrams.specs.Filled.{root_nodes};

use crate::check::{arrow_fails, child_fails};
use crate::reading::reads_of;
use crate::row::{Root, Row};
use crate::table::Diagrams;
use bank::check::refused_at;
use bank::table_fault::{TableCause, TableFault};

impl<'a> Diagrams<'a> {
    // Refuses a row that cannot stand after the others.
    #[tactic(auto, unfolding(crate::specs::Causes::row_cause, bank::specs::Checks::and_then, bank::specs::Checks::refused_at))]
    fn check_row(&self, row: Row) -> Result<(), TableFault>
        ensures value { located result ≡ row_cause (room_of self.now.rows.now) self.now.width self.now.rows.now self.now.used row }
        ensures room { OnOk result (self.now.used < room_of self.now.rows.now) }
        ensures lawful { OnOk result (RowLawful self.now.width self.now.rows.now self.now.used row) }
    {
        let item = self.used;
        let full = self.room() <= item;
        refused_at(TableCause::TooMany, full.then_some(item))?;
        let wide = self.width <= row.option as usize;
        refused_at(TableCause::OptionTooLarge, wide.then_some(item))?;
        let upward = arrow_fails(item, row);
        refused_at(TableCause::ArrowNotDown, upward.then_some(item))?;
        let early = child_fails(self.width, self.rows, row);
        refused_at(TableCause::ChildNotLater, early.then_some(item))
    }

    // Adds a row after the others. The roots keep what they read, since no arrow leads to a later row.
    pub fn add_row(&mut self, row: Row) -> Result<(), TableFault>
        ensures answer { located result ≡ row_cause (room_of self.old.rows.now) self.old.width self.old.rows.now self.old.used row }
        ensures refused { OnErr result (self.new ≡ self.old) }
        ensures sizes { OnOk result ((self.new.width ≡ self.old.width) × (self.new.used ≡ self.old.used + 1)) }
        ensures rows { OnOk result (self.new.rows.now ≡ slice_set self.old.rows.now self.old.used row) }
        ensures roots { self.new.roots ≡ self.old.roots }
        ensures lent { self.new.rows.ghost_name ≡ self.old.rows.ghost_name }
    {
        self.check_row(row)?;
        let at = self.used;
        self.rows[at] = row;
        self.used = at + 1;
        Ok(())
    }

    // Refuses a root for which there is no room, or that is no node.
    #[tactic(auto, unfolding(crate::specs::Causes::root_cause, bank::specs::Checks::and_then, bank::specs::Checks::refused_at))]
    fn check_root(&self, node: u32) -> Result<(), TableFault>
        ensures value { located result ≡ root_cause self.now.used (length self.now.roots.items) node }
        ensures room { OnOk result (length self.now.roots.items < 128) }
        ensures node { OnOk result (node < self.now.used + 2) }
    {
        let item = self.roots.len();
        refused_at(TableCause::TooMany, self.roots.is_full().then_some(item))?;
        let unknown = self.used + 2 <= node as usize;
        refused_at(TableCause::RootUnknown, unknown.then_some(item))
    }

    // Adds a rule: a root, with the set of the options that it reads.
    pub fn add_root(&mut self, node: u32) -> Result<(), TableFault>
        ensures answer { located result ≡ root_cause self.old.used (length self.old.roots.items) node }
        ensures refused { OnErr result (self.new ≡ self.old) }
        ensures kept { (self.new.width ≡ self.old.width) × (self.new.used ≡ self.old.used) × (self.new.rows ≡ self.old.rows) }
        ensures count { OnOk result (length self.new.roots.items ≡ length self.old.roots.items + 1) }
        ensures nodes { OnOk result (root_nodes self.new.roots.items ≡ root_nodes self.old.roots.items ++ node ∷ []) }
    {
        self.check_root(node)?;
        let reads = reads_of(self, node as usize);
        self.roots.push(Root { node, reads });
        Ok(())
    }
}
