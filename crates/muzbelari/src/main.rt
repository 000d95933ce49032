// The quotation program: reads rules.txt and picks.txt in the working folder and prints the listing of the order.
// Of a fault it also says in words, on standard error, what it is and which line has it.
#![tactic(auto)]

mod faults;

use anyhow::anyhow;
use faults::explain;
use quote::quote::LISTING_ROOM;
use quote::request::Request;
use std::fs;

const BUDGET: u64 = 1000000;

// The whole file; one that cannot be read ends the program.
fn read_text(rt: &HostRuntime, name: &str) -> anyhow::Result<Vec<u8>> {
    fs::read(rt, name).map_err(|_| anyhow!("{name} cannot be read"))
}

fn main(rt: HostRuntime) -> anyhow::Result<()> {
    let rules = read_text(&rt, "rules.txt")?;
    let picks = read_text(&rt, "picks.txt")?;
    let request = Request {
        rules: &rules,
        picks: &picks,
        budget: BUDGET,
    };
    let mut listing = [0u8; LISTING_ROOM];
    let written = request.quote(&mut listing);
    if let Some(lines) = listing.get(0..written) {
        rt.write_all(lines)?;
    }
    explain(&rt, &request)
}
