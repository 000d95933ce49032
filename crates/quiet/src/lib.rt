// Which rules need not be asked: each of them said nothing new when it was asked, and no option that it reads has changed since.
// A search that asks only the others finds what it would find by asking all of them.
#![tactic(auto)]

pub mod quiet;
pub mod readers;
