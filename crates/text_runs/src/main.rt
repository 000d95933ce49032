// Quotes orders whose listings were worked out beforehand, from the page on the format alone and in another language
// (tools/text_cases.py): each fault at its first line and at its edge, a good order with each byte replaced and cut short at each
// place, and texts as long as texts may be. Says how many listings were as expected, byte for byte and with nothing else written.
#![tactic(auto)]

mod cases;
mod changes;
mod large;
mod listed;
mod tally;

use std::fs;

fn main(rt: HostRuntime) -> anyhow::Result<()> {
    let told = fs::read(&rt, "cases.txt")?;
    let faults = cases::try_all(&rt, &told)?;
    println!(rt; "faults at their first lines and edges: {faults}")?;
    let told = fs::read(&rt, "replaced.txt")?;
    let changed = changes::try_all(&rt, &told)?;
    println!(rt; "a good order with a byte replaced, or cut short: {changed}")?;
    let large = large::try_all(&rt)?;
    println!(rt; "tables and texts at their limits: {large}")?;
    Ok(())
}
