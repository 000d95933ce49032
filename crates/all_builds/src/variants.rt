// Compares the variants of diagram rules, and the walk of single builds, with what all builds give.
use crate::oracle::Oracle;
use crate::place::{FRESH, ROOM, draw_values, placed};
use crate::random::Random;
use crate::tally::Tally;
use crate::values::{ALL_OPEN, Values};
use anyhow::ensure;
use bank::refusal::Refusal;
use diagram_bank::variants::variants;
use diagram_bank::walk::meets;
use diagrams::table::Diagrams;

// More places than any table here has nodes.
const NODES: usize = 32;

// What a place of the column holds beforehand.
const UNTOUCHED: u64 = 99;

// The number, and a column that is written up to the last node and no further.
fn try_variants(
    table: &Diagrams<'_>,
    oracle: &Oracle,
    rule: usize,
    values: &Values,
    tally: &mut Tally,
) -> anyhow::Result<()> {
    let mut column = [UNTOUCHED; NODES];
    let found = variants(table, rule, &placed(values, oracle.width()), &mut column);
    let wanted = oracle.marks(rule, values).1;
    ensure!(
        found == Ok(wanted),
        "variants of rule {rule} under {values:?}: {found:?}, and not {wanted}"
    );
    let rest = column.get(table.used.saturating_add(2)..).unwrap_or(&[]);
    ensure!(
        rest.iter().all(|place| *place == UNTOUCHED),
        "variants of rule {rule} under {values:?} write past the nodes"
    );
    tally.variants.one_more();
    Ok(())
}

// A call that is refused with this number and leaves the column alone.
fn try_refusal(
    table: &Diagrams<'_>,
    rule: usize,
    values: &[u8],
    room: usize,
    wanted: u8,
    tally: &mut Tally,
) -> anyhow::Result<()> {
    let mut column = [UNTOUCHED; NODES];
    let found = variants(table, rule, values, &mut column[..room.min(NODES)]).map_err(
        Refusal::number,
    );
    ensure!(
        found == Err(wanted) && column == [UNTOUCHED; NODES],
        "variants of rule {rule} under {values:?}: {found:?}, and not refusal {wanted}"
    );
    tally.refused(wanted);
    Ok(())
}

fn try_refusals(
    table: &Diagrams<'_>,
    oracle: &Oracle,
    random: &mut Random,
    tally: &mut Tally,
) -> anyhow::Result<()> {
    let nodes = table.used.saturating_add(2);
    let short = random.place(oracle.width());
    try_refusal(table, oracle.count(), &[], 0, 7, tally)?;
    for rule in 0..oracle.count() {
        try_refusal(table, rule, &FRESH[..short.min(ROOM)], NODES, 8, tally)?;
        try_refusal(table, rule, &FRESH, random.place(nodes), 8, tally)?;
        try_refusal(table, rule, &FRESH, nodes, 9, tally)?;
    }
    Ok(())
}

// Each build, walked.
fn try_walks(
    table: &Diagrams<'_>,
    oracle: &Oracle,
    rule: usize,
    tally: &mut Tally,
) -> anyhow::Result<()> {
    for (at, build) in oracle.builds().iter().enumerate() {
        let found = meets(table, rule, build);
        ensure!(
            found == Ok(oracle.meets(rule, at)),
            "the walk of {build:?} by rule {rule}: {found:?}"
        );
        tally.walks.one_more();
    }
    Ok(())
}

pub fn try_all_variants(
    table: &Diagrams<'_>,
    oracle: &Oracle,
    random: &mut Random,
    tally: &mut Tally,
) -> anyhow::Result<()> {
    try_refusals(table, oracle, random, tally)?;
    for rule in 0..oracle.count() {
        try_variants(table, oracle, rule, &ALL_OPEN, tally)?;
        for _ in 0..12 {
            let values = draw_values(random, oracle.width());
            try_variants(table, oracle, rule, &values, tally)?;
        }
        try_walks(table, oracle, rule, tally)?;
    }
    Ok(())
}
