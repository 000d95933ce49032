// Marks every lawful table of up to three rows over three options, under every values table, and compares each answer with trying all builds.
#![tactic(auto)]

mod by_builds;
mod tables;
mod tally;

use tables::row_of;
use tally::Tally;

fn run(rt: &HostRuntime) -> anyhow::Result<()> {
    let mut tally = Tally::default();
    tally.try_rows(&[]);
    // a code is the number of a row, not an index
    for code in 0..12 {
        tally.try_after_one(row_of(0, code));
    }
    println!(rt; "{tally}")?;
    Ok(())
}

fn main(rt: HostRuntime) -> anyhow::Result<()> {
    run(&rt)
}
