// The line at fault, out of whichever text holds it. The reading that decides here is the one that decides a quote.
ghost use Rattle.std.specs.Prelude.{◌≡◌};
ghost use Rattle.quote.specs.Requests.{order_in};
ghost use Rattle.quote.specs.Faulty.{fault_told, fault_in, line_told, line_in, place_told, place_left};

use crate::faulty_line::FaultyLine;
use crate::faulty_place::FaultyPlace;
use crate::request::Request;
use crate::tables::no_rows;
use rule_text::tables::Tables;
use texts::faults::{Text, TextFault};
use texts::line_place::line_place;

impl<'a> Request<'a> {
    // The first fault of the order, if it has one.
    pub fn first_fault(&self) -> Option<TextFault>
        ensures { fault_told result ≡ fault_in (order_in self.now) }
    {
        // here and in `quote`: memory is lent from the stack of the call, and a shared function would take a closure
        let mut memory = no_rows();
        let mut tables = Tables::empty(&mut memory);
        self.read_order(&mut tables).err()
    }

    // The faulty line without its LF, with its number and the place of its first byte in its text; none where no line is at fault.
    pub fn faulty_line(&self) -> Option<FaultyLine<'a>>
        ensures { line_told result ≡ line_in (order_in self.now) self.now.rules.now self.now.picks.now }
    {
        let fault = self.first_fault()?;
        let text = fault.text?;
        let number = fault.line?;
        let bytes = match text {
            Text::Rules => self.rules,
            Text::Picks => self.picks,
        };
        let place = line_place(bytes, number)?;
        Some(FaultyLine {
            bytes: &bytes[place.start..place.end],
            text,
            number,
            start: place.start,
        })
    }

    // The same for C: whether there is a faulty line, and where it stands; the place handed in stays as it was where there is none.
    pub fn faulty_line_place(&self, place: &mut FaultyPlace) -> bool
        ensures told { result ≡ place_told (line_in (order_in self.now) self.now.rules.now self.now.picks.now) }
        ensures place { place.new ≡ place_left (line_in (order_in self.now) self.now.rules.now self.now.picks.now) place.old }
    {
        match self.faulty_line() {
            None => false,
            Some(line) => {
                place.text = line.text.number() as usize;
                place.line = line.number;
                place.start = line.start;
                place.length = line.bytes.len();
                true
            }
        }
    }
}
