// Reading a whole pick text, until its end or its first fault.
ghost use Rattle.std.specs.Prelude.{◌≡◌, map};
ghost use Rattle.search_theory.specs.Values.{value_number};
ghost use Rattle.texts.specs.Causes.{text_said};
ghost use Rattle.pick_text.specs.PickLines.{picks_text, picks_until};

use crate::picks::Picks;
use lines::iter::Lines;
use texts::faults::{Text, TextFault, at_line};

impl Picks {
    // Reads the text, whatever was picked. The picks end as those of the lines before the first fault, or of all.
    #[tactic(auto, using(texts::proofs::Reading::reading_begun, texts::proofs::Reading::reading_done))]
    pub fn read(&mut self, text: &[u8]) -> Result<(), TextFault>
        ensures answer { text_said result (map value_number self.new.values) ≡ picks_text self.old.width text.now }
        ensures table { map value_number self.new.values ≡ picks_until self.old.width text.now }
        ensures width { self.new.width ≡ self.old.width }
    {
        self.values = [None; 128];
        for (before, line) in Lines::new(text).enumerate() {
            let result = self.read_pick(line);
            at_line(result, Some(Text::Picks), before)?;
        }
        Ok(())
    }
}
