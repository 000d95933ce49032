// Three clauses over three options: option 1 taken; option 0 left out or option 2 taken; no way to meet it.
use crate::show::show_rule;
use anyhow::anyhow;
use clauses::table::Clauses;

pub fn show_clauses(rt: &HostRuntime) -> anyhow::Result<()> {
    let mut table = Clauses::empty();
    table
        .open(3, &[&[3, 3], &[0, 5], &[]])
        .map_err(|_| anyhow!("the table of clauses was refused"))?;
    show_rule(rt, "clause 3 3", &table, 0, &[2, 2, 2])?;
    show_rule(rt, "clause 0 5", &table, 1, &[1, 2, 2])?;
    show_rule(rt, "clause without literals", &table, 2, &[2, 2, 2])
}
