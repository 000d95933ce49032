// A group as a caller hands it in. Nothing is known of its numbers yet.
#[derive(Clone, Copy, Drop)]
pub struct GroupText<'a> {
    pub lo: u32,
    pub hi: u32,
    pub options: &'a [u32],
}
