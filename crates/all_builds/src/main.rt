// Makes many small banks from a fixed seed, and holds everything that the library says of them against the list of all their builds:
// marks, variants, completions, forced answers, checks, refusals, budgets, and what sessions keep from one call to the next.
//
// A difference is printed with the seed of its bank and the tables, and the program ends with an error. Where the search comes to
// take other steps, other calls are spent and other searches stand open, and some of the counts change with them; the banks
// and the marks do not.
#![tactic(auto)]

mod banks;
mod bounds;
mod call_draw;
mod call_words;
mod count;
mod draw;
mod drawn;
mod judge;
mod kind;
mod lazy;
mod ledger;
mod marks;
mod meaning;
mod memory;
mod opened;
mod oracle;
mod place;
mod probe;
mod random;
mod runs;
mod single;
mod tables;
mod tally;
mod told;
mod values;
mod variants;

use anyhow::ensure;
use banks::try_drawn;
use drawn::Drawn;
use kind::{KINDS, Kind};
use oracle::Oracle;
use random::Random;
use std::alloc::{AllocError, Global};
use tally::Tally;

// The seed of the first bank; the others follow it.
const FIRST_SEED: u64 = 1;

// How many banks of each kind are made; of lazy ones twice as many.
const BANKS: u64 = 800;

// A lazy bank runs a search into the most conflicts.
fn banks_of(kind: Kind) -> u64 {
    match kind {
        Kind::Lazy => 2 * BANKS,
        _ => BANKS,
    }
}

// Tables for a bank of the kind, with its oracle. Those that are not tight are mostly drawn anew, a few times.
fn draw_bank(
    alloc: Global,
    kind: Kind,
    random: &mut Random,
) -> Result<(Drawn, Oracle), AllocError> {
    let mut drawn = Drawn::new(alloc, random)?;
    let mut oracle = kind.oracle(alloc, &drawn)?;
    for _ in 0..8 {
        if oracle.is_tight() || random.chance(8) {
            break;
        }
        drawn = Drawn::new(alloc, random)?;
        oracle = kind.oracle(alloc, &drawn)?;
    }
    Ok((drawn, oracle))
}

// The bank of a seed and a kind.
fn try_seed(rt: &HostRuntime, kind: Kind, seed: u64, tally: &mut Tally) -> anyhow::Result<()> {
    let alloc = rt.alloc();
    let mut random = Random::new(seed);
    let (drawn, oracle) = draw_bank(alloc, kind, &mut random)?;
    if let Err(difference) = try_drawn(alloc, kind, &drawn, &oracle, &mut random, tally) {
        tally.differences.one_more();
        println!(rt; "seed {seed}, {kind}: {difference:#}")?;
        println!(rt; "{drawn:?}")?;
    }
    Ok(())
}

fn run(rt: &HostRuntime) -> anyhow::Result<()> {
    let mut tally = Tally::default();
    let mut seed = FIRST_SEED;
    for kind in KINDS {
        let banks = banks_of(kind);
        for _ in 0..banks {
            try_seed(rt, kind, seed, &mut tally)?;
            seed = seed.wrapping_add(1);
        }
        println!(rt; "{banks} banks of {kind}")?;
    }
    println!(rt; "{tally}")?;
    ensure!(tally.differences.is_none(), "there are differences");
    Ok(())
}

fn main(rt: HostRuntime) -> anyhow::Result<()> {
    run(&rt)
}
