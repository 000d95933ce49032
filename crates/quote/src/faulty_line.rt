// A line at fault, as it stands in its text.
use texts::faults::Text;

// Its bytes without the LF, its text, its number there, counted from 1, and the place of its first byte, counted from 0.
#[derive(Clone, Copy, Drop)]
pub struct FaultyLine<'a> {
    pub bytes: &'a [u8],
    pub text: Text,
    pub number: usize,
    pub start: usize,
}
