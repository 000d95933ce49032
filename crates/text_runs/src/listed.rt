// Quotes an order and holds the answer against what is expected.
use quote::quote::LISTING_ROOM;
use quote::request::Request;
use texts::faults::Text;

// What the place for the listing holds beforehand.
pub const UNTOUCHED: u8 = 238;

// An order, and the listing that is expected of it.
#[derive(Clone, Copy, Drop)]
pub struct Expected<'a> {
    pub request: Request<'a>,
    pub listing: &'a [u8],
}

impl<'a> Expected<'a> {
    // Whether the quote writes just this listing, and the faulty line is the one that it names.
    pub fn comes(&self) -> bool {
        let mut listing = [UNTOUCHED; LISTING_ROOM];
        let written = self.request.quote(&mut listing);
        let listed = listing.get(..written) == Some(self.listing);
        let rest = listing
            .get(written..)
            .is_some_and(|rest| rest.iter().all(|byte| *byte == UNTOUCHED));
        listed && rest && self.names_its_line()
    }

    // Whether the line handed out is the text's line of the number that the listing tells; none where it tells no line.
    fn names_its_line(&self) -> bool {
        match self.request.faulty_line() {
            None => self.tells_no_line(),
            Some(line) => {
                let (letter, text) = match line.text {
                    Text::Rules => (b"F     1", self.request.rules),
                    Text::Picks => (b"F     2", self.request.picks),
                };
                let there = text
                    .split(|byte| *byte == b'\n')
                    .nth(line.number.saturating_sub(1));
                self.listing.starts_with(letter)
                    && there == Some(line.bytes)
                    && self.told_line() == line.number
            }
        }
    }

    // Whether the listing is no fault, or one of no line: the call's, a text that is too long, or rules without a line.
    fn tells_no_line(&self) -> bool {
        self.listing.first() != Some(&b'F')
            || self.told_line() == 0
            || self.request.rules.is_empty()
    }

    // The line that a fault's listing tells, in its third field.
    fn told_line(&self) -> usize {
        let field = self.listing.get(13..19).unwrap_or(b"");
        field.iter().filter(|byte| byte.is_ascii_digit()).fold(
            0,
            |number, digit| 10 * (number % 100000) + (*digit - b'0') as usize,
        )
    }
}
