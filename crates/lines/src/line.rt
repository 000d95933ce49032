// One line of a text: its bytes without the LF, and whether an LF follows them.
#[derive(Clone, Copy, Drop)]
pub struct Line<'a> {
    pub bytes: &'a [u8],
    pub closed: bool,
}
