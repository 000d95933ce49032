// The examples at the edges: the most variants that are counted, the shortest conflict, the greatest budget, the most options.
use anyhow::anyhow;
use clauses::table::Clauses;
use diagram_bank::variants::variants;
use diagrams::row::Row;
use diagrams::table::Diagrams;
use session::complete::MOST_STEPS;
use session::completion::Verdict;
use session::session::Session;

// The rule that every build meets (the root is the 1 end), over `width` options that are all open.
fn show_all_builds(rt: &HostRuntime, width: usize) -> anyhow::Result<()> {
    let mut memory = [Row::default(); 1];
    let mut table = Diagrams::empty(&mut memory);
    table
        .open(width, &[], &[1])
        .map_err(|_| anyhow!("the table of diagrams was refused"))?;
    let values = [2u8; 128];
    let mut column = [0u64; 2];
    match variants(&table, 0, &values, &mut column) {
        Ok(count) => println!(rt; "root 1 over {width} options: {count} variants")?,
        Err(refusal) => println!(rt;
            "root 1 over {width} options: refused, {}",
            refusal.number()
        )?,
    }
    Ok(())
}

// One option that must be taken and must be left out.
fn show_contradiction(rt: &HostRuntime, budget: u64) -> anyhow::Result<()> {
    let mut table = Clauses::empty();
    table
        .open(1, &[&[1], &[0]])
        .map_err(|_| anyhow!("the table of clauses was refused"))?;
    let mut session = Session::new(table);
    let mut place = [2u8; 1];
    match session.complete(budget, &mut place) {
        Ok(completion) => {
            let steps = completion.steps;
            // this program's words for a verdict; another says others, so they are no `Display`
            let word = match completion.answer {
                Verdict::Build => "a build",
                Verdict::NoBuild => "none",
                Verdict::Spent => "spent",
            };
            println!(rt; "clauses 1 and 0, budget {budget}: {word} after {steps} steps")?;
        }
        Err(refusal) => {
            let number = refusal.number();
            println!(rt; "clauses 1 and 0, budget {budget}: refused, {number}")?;
        }
    }
    Ok(())
}

fn show_width(rt: &HostRuntime, width: usize) -> anyhow::Result<()> {
    let mut table = Clauses::empty();
    match table.open(width, &[&[1]]) {
        Ok(()) => println!(rt; "a table of {width} options: opened")?,
        Err(fault) => println!(rt;
            "a table of {width} options: refused, {}",
            fault.cause.number()
        )?,
    }
    Ok(())
}

pub fn show_edges(rt: &HostRuntime) -> anyhow::Result<()> {
    show_all_builds(rt, 62)?;
    show_all_builds(rt, 63)?;
    show_contradiction(rt, 3)?;
    show_contradiction(rt, 0)?;
    show_contradiction(rt, MOST_STEPS)?;
    show_contradiction(rt, MOST_STEPS + 1)?;
    show_width(rt, 128)?;
    show_width(rt, 129)
}
