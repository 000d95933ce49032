// What a rule text says beside its rules: the number of options, and the first option of the diagrams' block.
#[derive(Clone, Copy, PartialEq, Eq, Debug, Drop)]
pub struct Frame {
    pub width: usize,
    pub first: usize,
}
