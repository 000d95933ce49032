// The calls of a session, with all their arguments.

// `room` is how many places a completion is handed for its build. A pick's value is a number, since a caller may hand in a wrong one.
#[derive(Clone, Copy, Drop)]
pub enum Call {
    Pick { option: usize, value: u8 },
    Release { option: usize },
    Complete { budget: u64, room: usize },
    Resume { budget: u64, room: usize },
    Forced { option: usize, budget: u64 },
    Forget,
}
