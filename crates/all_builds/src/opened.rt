// Opens the library's tables from what was drawn, whole or one item after the other. A drawn table is lawful, so a refusal is a difference.
use crate::random::Random;
use crate::tables::{ClauseTable, DiagramTable, GroupTable, Limits};
use anyhow::anyhow;
use bank::table_fault::TableFault;
use clauses::table::Clauses;
use diagrams::table::Diagrams;
use groups::table::Groups;
use groups::text::GroupText;
use std::alloc::Global;

fn refused(fault: TableFault) -> anyhow::Error {
    let number = fault.cause.number();
    anyhow!(
        "a lawful table was refused, {number} at item {}",
        fault.item
    )
}

pub fn open_diagrams(
    random: &mut Random,
    drawn: &DiagramTable,
    table: &mut Diagrams<'_>,
) -> anyhow::Result<()> {
    if random.chance(50) {
        return table
            .open(usize::from(drawn.width), &drawn.rows, &drawn.roots)
            .map_err(refused);
    }
    table
        .open(usize::from(drawn.width), &[], &[])
        .map_err(refused)?;
    for row in &drawn.rows {
        table.add_row(*row).map_err(refused)?;
    }
    for root in &drawn.roots {
        table.add_root(*root).map_err(refused)?;
    }
    Ok(())
}

pub fn open_clauses(
    alloc: Global,
    random: &mut Random,
    drawn: &ClauseTable,
) -> anyhow::Result<Clauses> {
    let mut table = Clauses::empty();
    if random.chance(50) {
        let mut lists: Vec<&[u32]> = Vec::new(alloc);
        for literals in &drawn.clauses {
            lists.push(literals)?;
        }
        table
            .open(usize::from(drawn.width), &lists)
            .map_err(refused)?;
        return Ok(table);
    }
    table.open(usize::from(drawn.width), &[]).map_err(refused)?;
    for literals in &drawn.clauses {
        table.add(literals).map_err(refused)?;
    }
    Ok(table)
}

fn text_of(limits: &Limits) -> GroupText<'_> {
    GroupText {
        lo: limits.lo,
        hi: limits.hi,
        options: &limits.options,
    }
}

pub fn open_groups(
    alloc: Global,
    random: &mut Random,
    drawn: &GroupTable,
) -> anyhow::Result<Groups> {
    let mut table = Groups::empty();
    if random.chance(50) {
        let mut texts = Vec::new(alloc);
        for limits in &drawn.groups {
            texts.push(text_of(limits))?;
        }
        table
            .open(usize::from(drawn.width), &texts)
            .map_err(refused)?;
        return Ok(table);
    }
    table.open(usize::from(drawn.width), &[]).map_err(refused)?;
    for limits in &drawn.groups {
        table.add(&text_of(limits)).map_err(refused)?;
    }
    Ok(table)
}
