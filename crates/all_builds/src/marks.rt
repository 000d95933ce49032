// Compares what a bank says of each rule with what all builds give: the answers and every place, at refusals too, and the options read.
use crate::oracle::Oracle;
use crate::place::{FRESH, ROOM, draw_values, placed};
use crate::random::Random;
use crate::tally::Tally;
use crate::values::{ALL_OPEN, Values};
use anyhow::ensure;
use bank::refusal::{Answer, Refusal};
use bank::rule_bank::RuleBank;

fn try_mark<B: RuleBank>(
    b: &B,
    oracle: &Oracle,
    rule: usize,
    values: &Values,
    tally: &mut Tally,
) -> anyhow::Result<()> {
    let table = placed(values, oracle.width());
    let mut marks = FRESH;
    let found = b.mark(rule, &table, &mut marks);
    let (answer, wanted) = match oracle.marks(rule, values).0 {
        None => (Answer::Dead, FRESH),
        Some(marks) => (Answer::Live, placed(&marks, oracle.width())),
    };
    ensure!(
        found == Ok(answer) && marks == wanted,
        "rule {rule} under {values:?}: {found:?} {marks:?}, and not {answer:?} {wanted:?}"
    );
    match answer {
        Answer::Dead => tally.dead.one_more(),
        Answer::Live => tally.live.one_more(),
    }
    Ok(())
}

// A call that is refused with this number and leaves the place alone.
fn try_refusal<B: RuleBank>(
    b: &B,
    rule: usize,
    values: &[u8],
    room: usize,
    wanted: u8,
    tally: &mut Tally,
) -> anyhow::Result<()> {
    let mut marks = FRESH;
    let found = b
        .mark(rule, values, &mut marks[..room.min(ROOM)])
        .map_err(Refusal::number);
    ensure!(
        found == Err(wanted) && marks == FRESH,
        "rule {rule} under {values:?}: {found:?} {marks:?}, and not refusal {wanted}"
    );
    tally.refused(wanted);
    Ok(())
}

// The three refusals, each also where those after it apply.
fn try_refusals<B: RuleBank>(
    b: &B,
    oracle: &Oracle,
    random: &mut Random,
    tally: &mut Tally,
) -> anyhow::Result<()> {
    let width = oracle.width();
    let good = placed(&draw_values(random, width), width);
    let mut bad = good;
    if let Some(value) = bad.get_mut(random.place(width)) {
        *value = 3;
    }
    let short = random.place(width);
    let past = oracle.count().saturating_add(random.place(2));
    try_refusal(b, past, &bad[..short.min(ROOM)], short, 7, tally)?;
    for rule in 0..oracle.count() {
        try_refusal(b, rule, &good, short, 8, tally)?;
        try_refusal(b, rule, &bad[..short.min(ROOM)], ROOM, 8, tally)?;
        try_refusal(b, rule, &bad, ROOM, 9, tally)?;
    }
    Ok(())
}

// A rule that depends on an option reads it.
fn try_reads<B: RuleBank>(b: &B, oracle: &Oracle, tally: &mut Tally) -> anyhow::Result<()> {
    for rule in 0..oracle.count() {
        let reads = b.reads(rule);
        for option in 0..oracle.width() {
            ensure!(
                reads.contains(option) || !oracle.depends(rule, option),
                "rule {rule} depends on option {option} and does not read it"
            );
            tally.reads.one_more();
        }
    }
    Ok(())
}

// The size of the bank, the options that each rule reads, and what is refused: what every bank owes.
pub fn try_shape<B: RuleBank>(
    b: &B,
    oracle: &Oracle,
    random: &mut Random,
    tally: &mut Tally,
) -> anyhow::Result<()> {
    let width = b.width();
    let count = b.count();
    ensure!(
        width == oracle.width() && count == oracle.count(),
        "{width} options and {count} rules"
    );
    try_reads(b, oracle, tally)?;
    try_refusals(b, oracle, random, tally)
}

// Every rule under the table without a value and under drawn ones, each mark exact.
pub fn try_marks<B: RuleBank>(
    b: &B,
    oracle: &Oracle,
    random: &mut Random,
    tally: &mut Tally,
) -> anyhow::Result<()> {
    for rule in 0..oracle.count() {
        try_mark(b, oracle, rule, &ALL_OPEN, tally)?;
        for _ in 0..24 {
            let values = draw_values(random, oracle.width());
            try_mark(b, oracle, rule, &values, tally)?;
        }
    }
    Ok(())
}
