// A rule line's first letter decides its kind, and the kinds stand in one order.
ghost use Rattle.std.specs.Prelude.{◌≡◌, slice_index};
ghost use Rattle.rule_text.specs.Kinds.{rank_of, stage_of};
ghost use Rattle.rule_text.specs.RuleLines.{kind_of, in_turn};

// In the order of the lines.
#[derive(Clone, Copy, PartialEq, Eq, PartialOrd, Ord, Drop)]
pub enum Kind {
    // the number of options
    Width,
    // the block of the diagrams
    Block,
    Row,
    Root,
    Clause,
    Group,
}

// The kind that a letter names.
fn kind_of(letter: u8) -> Option<Kind>
    ensures { stage_of result ≡ kind_of letter }
{
    match char::from(letter) {
        'W' => Some(Kind::Width),
        'S' => Some(Kind::Block),
        'N' => Some(Kind::Row),
        'D' => Some(Kind::Root),
        'C' => Some(Kind::Clause),
        'K' => Some(Kind::Group),
        _ => None,
    }
}

// The kind of a line. An empty line has no letter.
pub(crate) fn first_kind(line: &[u8]) -> Option<Kind>
    ensures { stage_of result ≡ kind_of (slice_index line.now 0) }
{
    kind_of(*line.first()?)
}

// Whether a line of the kind may stand after the last one, if there was one.
pub(crate) fn in_turn(last: Option<Kind>, kind: Kind) -> bool
    ensures { result ≡ in_turn (stage_of last) (rank_of kind) }
{
    match kind {
        Kind::Width => last.is_none(),
        Kind::Block => last == Some(Kind::Width),
        _ => last.is_some_and(|last| last <= kind),
    }
}
