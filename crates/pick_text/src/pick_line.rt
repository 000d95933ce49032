// One pick line: its option gets its value, unless it has one. A line at fault changes nothing.
ghost use Rattle.std.specs.Prelude.{◌≡◌, map, OnErr};
ghost use Rattle.lines.specs.Said.{line_of};
ghost use Rattle.search_theory.specs.Values.{value_number};
ghost use Rattle.texts.specs.Causes.{line_said};
ghost use Rattle.pick_text.specs.PickLines.{picked, read_pick};
ghost use Rattle.pick_text.specs.Said.{pick_said};

use crate::picks::Picks;
use bank::refusal::Refusal;
use lines::line::Line;
use texts::faults::{Cause, LineFault};
use texts::line_fields::whole_fields;

impl Picks {
    // Picks a value for an option, as a session does.
    // The value is a number, since a text may hold a wrong one, which is then refused.
    #[tactic(auto, using(crate::proofs::Picking::picked_now))]
    fn pick(&mut self, option: usize, value: u32) -> Result<(), Refusal>
        ensures answer { pick_said result (map value_number self.new.values) ≡ picked self.old.width (map value_number self.old.values) option value }
        ensures refused { OnErr result (self.new.values ≡ self.old.values) }
        ensures width { self.new.width ≡ self.old.width }
    {
        if option >= self.width {
            return Err(Refusal::OptionOutside);
        }
        if value >= 2 {
            return Err(Refusal::PickValue);
        }
        // an option that the table has no place for is never picked
        if option < self.values.len() {
            if self.values[option].is_some() {
                return Err(Refusal::AlreadyPicked);
            }
            self.values[option] = Some(value == 1);
        }
        Ok(())
    }

    // One line, after those that were read before.
    pub(crate) fn read_pick(&mut self, line: Line<'_>) -> Result<(), Cause>
        ensures answer { line_said result (map value_number self.new.values) ≡ read_pick self.old.width (map value_number self.old.values) (line_of line.entry) }
        ensures refused { OnErr result (self.new.values ≡ self.old.values) }
        ensures width { self.new.width ≡ self.old.width }
    {
        if line.bytes.first() != Some(&b'P') {
            return Err(Cause::Line(LineFault::Letter));
        }
        let [option, value] = whole_fields::<2>(line)?;
        self.pick(option as usize, value)?;
        Ok(())
    }
}
