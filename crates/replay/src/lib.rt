// Replays a list of calls on a new session and notes the replies: the law over runs stands here, and speaks of these very runs.
#![tactic(auto)]

pub mod call;
pub mod replay;
pub mod reply;
