// What one build is to one rule, from the rule's own rows, literals or options and from docs/RULES.md alone: nothing here asks the library.
use crate::tables::Limits;
use diagrams::row::Row;

#[derive(Clone, Copy)]
pub enum Rule<'a> {
    Diagram { rows: &'a [Row], root: u32 },
    Clause(&'a [u32]),
    Group(&'a Limits),
}

fn taken(build: &[bool], option: u32) -> bool {
    build.get(option as usize).copied().unwrap_or(false)
}

// Walks from the root to an end. Arrows lead down, so that going through the rows once, from the last, comes by the whole walk.
fn ends_at_one(rows: &[Row], root: u32, build: &[bool]) -> bool {
    let mut node = root as usize;
    for (r, row) in rows.iter().enumerate().rev() {
        if node == r.saturating_add(2) {
            node = if taken(build, row.option) {
                row.high as usize
            } else {
                row.low as usize
            };
        }
    }
    node == 1
}

// A literal is twice the option and the wanted value.
fn meets_a_literal(literals: &[u32], build: &[bool]) -> bool {
    literals
        .iter()
        .any(|literal| taken(build, literal / 2) == (literal % 2 == 1))
}

fn keeps_limits(limits: &Limits, build: &[bool]) -> bool {
    let count = limits
        .options
        .iter()
        .filter(|option| taken(build, **option))
        .count();
    limits.lo as usize <= count && count <= limits.hi as usize
}

impl<'a> Rule<'a> {
    pub fn is_met_by(self, build: &[bool]) -> bool {
        match self {
            Rule::Diagram { rows, root } => ends_at_one(rows, root, build),
            Rule::Clause(literals) => meets_a_literal(literals, build),
            Rule::Group(limits) => keeps_limits(limits, build),
        }
    }
}
