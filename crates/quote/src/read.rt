// Reading a whole order. What concerns the call as a whole is checked first, then the rules line by line, then the picks.
ghost use Rattle.std.specs.Prelude.{◌≡◌, Some, None};
ghost use Rattle.diagrams.specs.Causes.{room_of};
ghost use Rattle.rule_text.specs.View.{catalogue_of};
ghost use Rattle.order_theory.specs.Orders.{both_texts};
ghost use Rattle.quote.specs.Requests.{order_in};
ghost use Rattle.quote.specs.Reading.{order_said, if_whole};

use crate::request::Request;
use bank::refusal::Refusal;
use pick_text::picks::Picks;
use rule_text::tables::Tables;
use session::complete::MOST_STEPS;
use texts::faults::{Cause, LineFault, Text, TextFault};

// The longest texts.
const LONGEST_RULES: usize = 49152;

const LONGEST_PICKS: usize = 4096;

// A text that is too long has this fault, at no line.
fn too_long(text: Text) -> TextFault
    ensures { result ≡ record { text = Some text; line = None; cause = Cause.Line LineFault.TooLong } }
{
    TextFault {
        text: Some(text),
        line: None,
        cause: Cause::Line(LineFault::TooLong),
    }
}

impl Request<'_> {
    // What is at fault with the call as a whole, if anything.
    #[tactic(auto, using(std::proofs::lemmas::Bool::Decides::nat_tests), unfolding(pick_text::specs::Orders::order_of))]
    fn whole(&self) -> Result<(), TextFault>
        ensures { if_whole result (both_texts self.now.rules.now self.now.picks.now) ≡ order_in self.now }
    {
        if self.budget > MOST_STEPS {
            return Err(TextFault {
                text: None,
                line: None,
                cause: Cause::Session(Refusal::BudgetTooLarge),
            });
        }
        if self.rules.len() > LONGEST_RULES {
            return Err(too_long(Text::Rules));
        }
        if self.picks.len() > LONGEST_PICKS {
            return Err(too_long(Text::Picks));
        }
        Ok(())
    }

    // The rules go into the tables, and the picks beside them.
    fn read_texts(&self, tables: &mut Tables<'_>) -> Result<Picks, TextFault>
        requires { room_of tables.old.diagrams.rows.now ≡ 2048 }
        ensures { order_said result (catalogue_of tables.new) ≡ both_texts self.now.rules.now self.now.picks.now }
    {
        tables.read(self.rules)?;
        let mut picks = Picks::none(tables.width);
        picks.read(self.picks)?;
        Ok(picks)
    }

    // Reads the order, whose rules stand in the tables then, or its first fault.
    pub(crate) fn read_order(&self, tables: &mut Tables<'_>) -> Result<Picks, TextFault>
        requires { room_of tables.old.diagrams.rows.now ≡ 2048 }
        ensures { order_said result (catalogue_of tables.new) ≡ order_in self.now }
    {
        self.whole()?;
        self.read_texts(tables)
    }
}
