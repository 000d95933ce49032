// Where a faulty line stands, in a form that C can take.
// Text 1 is the rules and 2 the picks; the line's number is counted from 1, its first byte from 0, and its LF is no part of it.
#[repr(C)]
#[derive(Clone, Copy, Drop)]
pub struct FaultyPlace {
    pub text: usize,
    pub line: usize,
    pub start: usize,
    pub length: usize,
}
