// The example table of diagrams: four rows over three options, and its root 5; then the same moved up by two options.
use crate::show::show_rule;
use anyhow::anyhow;
use diagram_bank::rules::DiagramRules;
use diagram_bank::variants::variants;
use diagrams::row::Row;
use diagrams::table::Diagrams;
use layers::shift::Shift;

// How many fitting builds meet the rule.
fn show_variants(rt: &HostRuntime, table: &Diagrams<'_>, values: &[u8]) -> anyhow::Result<()> {
    let mut column = [0u64; 8];
    match variants(table, 0, values, &mut column) {
        Ok(count) => println!(rt; "  variants {count}")?,
        Err(refusal) => println!(rt; "  refused: {}", refusal.number())?,
    }
    Ok(())
}

// Nodes 2 to 5 of the example table. Tests have these rows once more: they and the programs share no crate for four lines of data.
pub fn example_rows() -> [Row; 4] {
    [
        Row {
            option: 2,
            low: 0,
            high: 1,
        },
        Row {
            option: 2,
            low: 1,
            high: 0,
        },
        Row {
            option: 1,
            low: 2,
            high: 3,
        },
        Row {
            option: 0,
            low: 2,
            high: 4,
        },
    ]
}

pub fn show_diagrams(rt: &HostRuntime) -> anyhow::Result<()> {
    let rows = example_rows();
    let mut memory = rows;
    let mut table = Diagrams::empty(&mut memory);
    table
        .open(3, &rows, &[5])
        .map_err(|_| anyhow!("the table of diagrams was refused"))?;
    let rules = DiagramRules { table: &table };
    show_rule(rt, "diagram, root 5", &rules, 0, &[2, 0, 2])?;
    show_variants(rt, &table, &[2, 2, 2])?;
    show_rule(rt, "diagram, root 5", &rules, 0, &[0, 2, 0])?;
    let moved = Shift::new(rules, 2);
    show_rule(
        rt,
        "diagram, root 5, moved up by 2",
        &moved,
        0,
        &[2, 2, 2, 0, 2],
    )
}
