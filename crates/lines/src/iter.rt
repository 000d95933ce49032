// The lines of a text in turn.
ghost use Rattle.std.specs.Prelude.{◌≡◌, ℕ, ◌<◌, ◌≤◌, length, ◌≢◌, EachIndex, slice_index, MatchOption};
ghost use Rattle.lines.specs.Lines.{lines_of, LinesLaw};
ghost use Rattle.lines.specs.Said.{line_of};
ghost use Rattle.std.specs.Iterator.{YieldsFirstBy, item_count};

use crate::line::Line;

// Where the first LF stands, if there is one.
fn line_end(text: &[u8]) -> Option<usize>
    ensures { MatchOption result (EachIndex text.now (λ k. slice_index text.now k ≢ 10))
        (λ n. (n < length text.now) × (slice_index text.now n ≡ 10) × ((k : ℕ) → k < n → slice_index text.now k ≢ 10)) }
{
    text.iter().position(|byte| *byte == b'\n')
}

// What is left of a text, to be parted into its lines.
#[derive(Drop)]
pub struct Lines<'a> {
    rest: &'a [u8],
}

impl<'a> Lines<'a> {
    // Before the first line.
    pub fn new(text: &'a [u8]) -> Self
        ensures rest { result.rest.now ≡ text.now }
        ensures few { length (lines_of text.now) ≤ length text.now }
        ensures law { LinesLaw }
    {
        Lines { rest: text }
    }
}

impl<'a> Iterator for Lines<'a> {
    type Item = Line<'a>;

    ghost next_gives = { YieldsFirstBy line_of (λ s. lines_of s.rest.now) };

    ghost remaining = { item_count (λ s. lines_of s.rest.now) };

    #[tactic(auto, using(crate::proofs::Parts::line_past, crate::proofs::Parts::line_cut, crate::proofs::Parts::line_rest))]
    fn next(&mut self) -> Option<Line<'a>> {
        let text = self.rest;
        if text.is_empty() {
            return None;
        }
        match line_end(text) {
            Some(end) => {
                self.rest = &text[end + 1..];
                Some(Line {
                    bytes: &text[..end],
                    closed: true,
                })
            }
            None => {
                self.rest = &[];
                Some(Line {
                    bytes: text,
                    closed: false,
                })
            }
        }
    }
}
