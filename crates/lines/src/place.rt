// Where a line stands in a text: its first byte, the place after its last, and whether an LF follows there.
#[derive(Clone, Copy, PartialEq, Eq, Debug, Drop)]
pub struct LinePlace {
    pub start: usize,
    pub end: usize,
    pub closed: bool,
}
