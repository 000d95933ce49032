// What a session replies to a call that it does not refuse.
use session::completion::Completion;
use session::forcing::Forced;

// At a verdict of `Build` the build stands in the first places, as many as there are options, of a place of fixed size, since
// nothing allocates.
#[derive(Clone, Copy, PartialEq, Eq, Debug, Drop)]
pub enum Reply {
    Done,
    Completed {
        completion: Completion,
        place: [u8; 128],
    },
    Told(Forced),
}
