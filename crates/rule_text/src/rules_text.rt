// Reading a whole rule text into the tables, until its end or its first fault.
ghost use Rattle.std.specs.Prelude.{◌≡◌, length, Ok, OnOk};
ghost use Rattle.diagrams.specs.Causes.{room_of};
ghost use Rattle.texts.specs.Causes.{text_said};
ghost use Rattle.rule_text.specs.RuleLines.{finished, rules_text, rules_until};
ghost use Rattle.rule_text.specs.View.{catalogue_of, Held};
ghost use Rattle.rule_text.specs.Frames.{frame_said, framed};
ghost use Rattle.rule_text.specs.Lending.{Lent};

use crate::frame::Frame;
use crate::tables::Tables;
use clauses::table::Clauses;
use diagrams::table::Diagrams;
use groups::table::Groups;
use lines::iter::Lines;
use std::mem;
use texts::faults::{Cause, LineFault, Text, TextFault, at_line};

impl<'a> Tables<'a> {
    // After the last line. A text without a line lacks the letter of its first.
    fn finished(&self) -> Result<(), TextFault>
        ensures { text_said result (catalogue_of self.now) ≡ finished (catalogue_of self.now) }
    {
        self.last.ok_or(TextFault {
            text: Some(Text::Rules),
            line: Some(1),
            cause: Cause::Line(LineFault::Letter),
        })?;
        Ok(())
    }

    // Reads the text, whatever stood in the tables. They end with the rules of the lines before the first fault, or of all.
    #[tactic(auto, using(texts::proofs::Reading::reading_begun, texts::proofs::Reading::reading_done), unfolding(bank::specs::Checks::refused_at))]
    pub fn read(&mut self, text: &[u8]) -> Result<(), TextFault>
        ensures answer { text_said result (catalogue_of self.new) ≡ rules_text (room_of self.old.diagrams.rows.now) text.now }
        ensures tables { catalogue_of self.new ≡ rules_until (room_of self.old.diagrams.rows.now) text.now }
        ensures lent { Lent self.old.diagrams self.new.diagrams }
    {
        // one option is never refused
        let _ = self.open(1);
        for (before, line) in Lines::new(text).enumerate() {
            let result = self.read_rule(line);
            at_line(result, Some(Text::Rules), before)?;
        }
        self.finished()
    }
}

// The same for a caller who keeps the three tables apart. They end as `Tables::read` leaves them, at a fault too; what they held before is gone.
// What holds between the three stands in `Tables`, so they are filled there, over the caller's memory, and then moved to their places.
#[tactic(auto, using(crate::proofs::Lending::rows_length))]
pub fn read_rules(
    text: &[u8],
    diagrams: &mut Diagrams<'_>,
    clauses: &mut Clauses,
    groups: &mut Groups,
) -> Result<Frame, TextFault>
    ensures answer { frame_said result ≡ framed (rules_text (room_of diagrams.old.rows.now) text.now) }
    ensures tables { Held diagrams.new clauses.new groups.new (rules_until (room_of diagrams.old.rows.now) text.now) }
    ensures used { diagrams.new.used ≡ length (rules_until (room_of diagrams.old.rows.now) text.now).rows }
    ensures whole { OnOk result (rules_text (room_of diagrams.old.rows.now) text.now ≡ Ok (rules_until (room_of diagrams.old.rows.now) text.now)) }
    ensures lent { Lent diagrams.old diagrams.new }
{
    let mut tables = Tables::of(mem::replace(diagrams, Diagrams::empty(&mut [])));
    let result = tables.read(text);
    *diagrams = tables.diagrams;
    *clauses = tables.clauses;
    *groups = tables.groups;
    result?;
    Ok(Frame {
        width: tables.width,
        first: tables.first,
    })
}
