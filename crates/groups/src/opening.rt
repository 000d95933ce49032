// Filling a table of groups: a whole one at once, or one group more. A refusal leaves the table as it stood.
ghost use Rattle.std.specs.Prelude.{◌≡◌, ◌<◌, true, [], ◌∷◌, ◌++◌, map, MatchResult, OnOk};
ghost use Rattle.arrayvec.specs.ArrayVec.{array_vec_len};
ghost use Rattle.bank.specs.Numbers.{located};
ghost use Rattle.groups.specs.Group.{Fair, all_below};
ghost use Rattle.groups.specs.Text.{told};
ghost use Rattle.groups.specs.Faults.{open_cause, add_cause, room_cause};
ghost use Rattle.groups.specs.View.{rules_of, Holds};

use crate::faults::{bounds_fail, check_groups, too_many};
use crate::group::Group;
use crate::options::{all_different, within};
use crate::storing::stored;
use crate::table::Groups;
use crate::text::GroupText;
use arrayvec::ArrayVec;
use bank::check::refused_at;
use bank::table_fault::{TableCause, TableFault};

impl Groups {
    // A table of one option and no group.
    pub fn empty() -> Groups
        ensures { Holds result 1 [] }
    {
        Groups {
            width: 1,
            groups: ArrayVec::new(),
        }
    }

    // Fills the table with these groups over `width` options, in the place of those that it had.
    #[tactic(auto, using(crate::proofs::Clear::clear_open))]
    pub fn open(&mut self, width: usize, groups: &[GroupText<'_>]) -> Result<(), TableFault>
        ensures answer { located result ≡ open_cause width (map told groups.now) }
        ensures bank { MatchResult result (λ _. Holds self.new width (map told groups.now)) (λ _. self.new ≡ self.old) }
    {
        check_groups(width, groups)?;
        self.groups = stored(groups);
        self.width = width;
        Ok(())
    }

    // Whether the table has room for a group of so many options.
    pub fn room_for(&self, options: usize) -> Result<(), TableFault>
        ensures { located result ≡ room_cause (array_vec_len self.now.groups) options }
    {
        let full = too_many(self.groups.len(), options);
        refused_at(TableCause::TooMany, full.then_some(self.groups.len()))
    }

    // Refuses a group that cannot stand after the others.
    #[tactic(auto, using(crate::proofs::Belows::below_more), unfolding(crate::specs::Faults::add_cause, bank::specs::Checks::and_then, bank::specs::Checks::refused_at))]
    fn check_group(&self, group: &GroupText<'_>) -> Result<(), TableFault>
        ensures value { located result ≡ add_cause self.now.width (array_vec_len self.now.groups) (told group.now) }
        ensures room { OnOk result (array_vec_len self.now.groups < 64) }
        ensures within { OnOk result (all_below self.now.width group.now.options.now ≡ true) }
        ensures fair { OnOk result (Fair (told group.now)) }
    {
        self.room_for(group.options.len())?;
        let item = self.groups.len();
        let outside = !within(group.options, self.width);
        refused_at(TableCause::OptionTooLarge, outside.then_some(item))?;
        refused_at(TableCause::GroupBounds, bounds_fail(group).then_some(item))?;
        let twice = !all_different(group.options);
        refused_at(TableCause::OptionTwice, twice.then_some(item))
    }

    // Adds a group.
    pub fn add(&mut self, group: &GroupText<'_>) -> Result<(), TableFault>
        ensures answer { located result ≡ add_cause self.old.width (array_vec_len self.old.groups) (told group.now) }
        ensures bank { MatchResult result (λ _. Holds self.new self.old.width (rules_of self.old ++ told group.now ∷ [])) (λ _. self.new ≡ self.old) }
    {
        self.check_group(group)?;
        self.groups.push(Group::of(group));
        Ok(())
    }
}
