// Where the line with a number stands, so that a faulty line can be handed out.
ghost use Rattle.std.specs.Prelude.{◌≡◌, ◌≤◌, length, IfSome};
ghost use Rattle.lines.specs.Lines.{lines_of};
ghost use Rattle.texts.specs.Places.{place_of, line_numbered, line_there};

use lines::iter::Lines;
use lines::place::LinePlace;

// The place of the line with that number, counted from 1; none where the text has no such line.
pub fn line_place(text: &[u8], number: usize) -> Option<LinePlace>
    ensures place { result ≡ place_of number text.now }
    ensures line { line_there text.now result ≡ line_numbered number (lines_of text.now) }
    ensures within { IfSome result (λ p. (p.start ≤ p.end) × (p.end ≤ length text.now)) }
{
    // lines are counted from 1: no text has a line 0, which is seen without reading it
    let wanted = number.checked_sub(1)?;
    let mut start = 0;
    for (before, line) in Lines::new(text).enumerate() {
        let end = start + line.bytes.len();
        if before == wanted {
            return Some(LinePlace {
                start,
                end,
                closed: line.closed,
            });
        }
        start = if line.closed { end + 1 } else { end };
    }
    None
}
