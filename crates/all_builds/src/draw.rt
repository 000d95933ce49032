// Draws tables of each kind. All of them are lawful.
use crate::random::Random;
use crate::tables::{ClauseTable, DiagramTable, GroupTable, Limits};
use diagrams::row::Row;
use std::alloc::{AllocError, Global};

const ENDS: u32 = 2;

// A node that a row of this option may lead to: one of the rows so far whose option is greater, or an end.
fn draw_child(random: &mut Random, rows: &[Row], nodes: u32, option: u32) -> u32 {
    // a few times, since an end is always there and makes the diagram shallow
    for _ in 0..4 {
        let node = random.below(nodes);
        let row = node.checked_sub(ENDS).and_then(|at| rows.get(at as usize));
        if row.is_some_and(|row| row.option > option) {
            return node;
        }
    }
    random.below(ENDS)
}

// Roots, mostly near the last row; each node may be one, the ends too, and more than once.
fn draw_roots(alloc: Global, random: &mut Random, nodes: u32) -> Result<Vec<u32>, AllocError> {
    let mut roots = Vec::new(alloc);
    for _ in 0..random.below(4) {
        let near = if random.chance(75) { 3 } else { nodes };
        let back = random.below(near);
        roots.push(nodes.saturating_sub(1).saturating_sub(back))?;
    }
    Ok(roots)
}

// Rows of mostly falling options, with arrows that skip options, to rows and to ends.
pub fn draw_diagrams(
    alloc: Global,
    random: &mut Random,
    width: u8,
) -> Result<DiagramTable, AllocError> {
    let options = u32::from(width);
    let count = random.below(2 * options + 3);
    let mut rows = Vec::new(alloc);
    let mut falling = options.saturating_sub(1);
    for r in 0..count {
        let option = if random.chance(20) {
            random.below(options)
        } else {
            falling
        };
        let nodes = r + ENDS;
        let low = draw_child(random, &rows, nodes, option);
        let high = draw_child(random, &rows, nodes, option);
        rows.push(Row { option, low, high })?;
        falling = falling.saturating_sub(random.below(2));
    }
    let roots = draw_roots(alloc, random, count + ENDS)?;
    Ok(DiagramTable { width, rows, roots })
}

// How many literals: now and then none, mostly two or three.
fn draw_length(random: &mut Random) -> u32 {
    match random.below(60) {
        0 => 0,
        1..5 => 1,
        5..25 => 2,
        25..50 => 3,
        _ => 3 + random.below(5),
    }
}

// Literals of both polarities; one may stand twice in its clause, and beside its opposite.
pub fn draw_clauses(
    alloc: Global,
    random: &mut Random,
    width: u8,
) -> Result<ClauseTable, AllocError> {
    let options = u32::from(width);
    let most = if random.chance(50) { 4 } else { 3 * options };
    let mut clauses = Vec::new(alloc);
    for _ in 0..random.below(most + 1) {
        let mut literals = Vec::new(alloc);
        for _ in 0..draw_length(random) {
            literals.push(random.below(2 * options))?;
        }
        clauses.push(literals)?;
    }
    Ok(ClauseTable { width, clauses })
}

// Some of the options, each once, in any order.
fn draw_options(alloc: Global, random: &mut Random, width: u8) -> Result<Vec<u32>, AllocError> {
    let mut options = Vec::new(alloc);
    let percent = 20 + random.below(81);
    for option in 0..u32::from(width) {
        if random.chance(percent) {
            let at = random.place(options.len().saturating_add(1));
            options.push(option)?;
            let last = options.len().saturating_sub(1);
            if at < last {
                options.swap(at, last);
            }
        }
    }
    Ok(options)
}

// Bounds at all edges, where lo ≤ hi ≤ k.
fn draw_limits(alloc: Global, random: &mut Random, width: u8) -> Result<Limits, AllocError> {
    let options = draw_options(alloc, random, width)?;
    let k = u32::try_from(options.len()).unwrap_or(0);
    let lo = match random.below(8) {
        0..3 => 0,
        3 => k,
        _ => random.below(k.saturating_add(1)),
    };
    let hi = match random.below(8) {
        0 => lo,
        1..4 => k,
        _ => lo.saturating_add(random.below(k.saturating_sub(lo).saturating_add(1))),
    };
    Ok(Limits { lo, hi, options })
}

pub fn draw_groups(
    alloc: Global,
    random: &mut Random,
    width: u8,
) -> Result<GroupTable, AllocError> {
    let mut groups = Vec::new(alloc);
    for _ in 0..random.below(4) {
        groups.push(draw_limits(alloc, random, width)?)?;
    }
    Ok(GroupTable { width, groups })
}
