// What is drawn for one bank: a table of each kind, and a shift. Which of them the bank is made of is told by its kind.
use crate::draw::{draw_clauses, draw_diagrams, draw_groups};
use crate::random::Random;
use crate::tables::{ClauseTable, DiagramTable, GroupTable};
use crate::values::MOST_OPTIONS;
use std::alloc::{AllocError, Global};

#[derive(Debug, Drop)]
pub struct Drawn {
    pub diagrams: DiagramTable,
    pub clauses: ClauseTable,
    pub groups: GroupTable,
    // how far a shift moves: no table is so wide that it would leave the options
    pub by: usize,
}

// The number of options of one table, at most so many.
fn draw_width(random: &mut Random, most: u8) -> u8 {
    if random.chance(60) {
        return most;
    }
    let less = random.below(u32::from(most)) as u8;
    less.saturating_add(1)
}

impl Drawn {
    pub fn new(alloc: Global, random: &mut Random) -> Result<Drawn, AllocError> {
        let most = 1 + random.place(MOST_OPTIONS).max(random.place(MOST_OPTIONS));
        let by = random.place(MOST_OPTIONS - most + 1);
        let most = most as u8;
        let width = draw_width(random, most);
        let diagrams = draw_diagrams(alloc, random, width)?;
        let width = draw_width(random, most);
        let clauses = draw_clauses(alloc, random, width)?;
        let width = draw_width(random, most);
        let groups = draw_groups(alloc, random, width)?;
        Ok(Drawn {
            diagrams,
            clauses,
            groups,
            by,
        })
    }
}
