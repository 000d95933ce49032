// A call in words, for a difference that is found at it.
use replay::call::Call;
use std::fmt;

#[derive(Clone, Copy, Drop)]
pub struct InWords(pub Call);

impl fmt::Display for InWords {
    fn fmt<W: fmt::Write>(&self, f: &mut fmt::Formatter<W>) -> fmt::Result {
        match self.0 {
            Call::Pick { option, value } => write!(f, "pick {option} {value}"),
            Call::Release { option } => write!(f, "release {option}"),
            Call::Complete { budget, room } => write!(f, "complete {budget} in {room} places"),
            Call::Resume { budget, room } => write!(f, "resume {budget} in {room} places"),
            Call::Forced { option, budget } => write!(f, "forced {option} {budget}"),
            Call::Forget => write!(f, "forget"),
        }
    }
}
