// One row of a diagram: a node that asks for an option, and where the build goes on.
ghost use Rattle.std.specs.Prelude.{◌≡◌};
ghost use Rattle.diagrams.specs.Rows.{option_of};

use option_set::OptionSet;

// Row r is node r + 2; the arrows are node numbers, 0 and 1 being the ends.
// Numbers and no enum: a row is written so in the lent memory and in a rule text, and a caller may hand in a wrong one.
#[derive(Clone, Copy, PartialEq, Eq, Debug, Default, Drop)]
pub struct Row {
    pub option: u32,
    pub low: u32,
    pub high: u32,
}

// A rule: the node that a build starts from, and the options that it can read from there.
#[derive(Clone, Copy, Default, Drop)]
pub struct Root {
    pub node: u32,
    pub reads: OptionSet,
}

// The option of a node over these rows: the width for an end, and 0 where there is no such row.
pub fn option_of(width: usize, rows: &[Row], node: usize) -> usize
    ensures { result ≡ option_of width rows.now node }
{
    match node.checked_sub(2) {
        None => width,
        Some(r) => rows.get(r).map_or(0, |row| row.option as usize),
    }
}
