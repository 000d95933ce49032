// A session over any rule bank: picks, completion, forced options and checks, with at most one search open at a time.
#![tactic(auto)]

pub mod check;
pub mod complete;
pub mod completion;
pub mod forced;
pub mod forcing;
pub mod forget;
pub mod pick;
pub mod release;
pub mod session;
