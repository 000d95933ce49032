// The kinds of bank that are tried: a table alone, and what the layers make of tables; and the oracle of each kind.
use crate::drawn::Drawn;
use crate::oracle::Oracle;
use std::alloc::{AllocError, Global};
use std::fmt;

#[derive(Clone, Copy, PartialEq, Eq, Debug, Drop)]
pub enum Kind {
    Diagrams,
    Clauses,
    Groups,
    Shift,
    Pair,
    Quote,
    Pairs,
    Lazy,
}

pub const KINDS: [Kind; 8] = [
    Kind::Diagrams,
    Kind::Clauses,
    Kind::Groups,
    Kind::Shift,
    Kind::Pair,
    Kind::Quote,
    Kind::Pairs,
    Kind::Lazy,
];

impl Kind {
    // The number of options of the bank.
    fn width(self, drawn: &Drawn) -> usize {
        let diagrams = usize::from(drawn.diagrams.width);
        let clauses = usize::from(drawn.clauses.width);
        let groups = usize::from(drawn.groups.width);
        let by = drawn.by;
        match self {
            Kind::Diagrams => diagrams,
            Kind::Clauses => clauses,
            Kind::Groups => groups,
            Kind::Shift => diagrams.max(clauses).saturating_add(by),
            Kind::Pair => clauses.max(groups),
            Kind::Quote => diagrams.saturating_add(by).max(clauses).max(groups),
            Kind::Pairs => groups.saturating_add(by).max(clauses).max(diagrams),
            Kind::Lazy => clauses.max(groups).max(diagrams),
        }
    }

    // The oracle of the bank: which tables it has in which order, and where their options begin. `crate::banks` makes the bank itself.
    pub fn oracle(self, alloc: Global, drawn: &Drawn) -> Result<Oracle, AllocError> {
        let (diagrams, clauses, groups) = (&drawn.diagrams, &drawn.clauses, &drawn.groups);
        let by = drawn.by;
        let mut oracle = Oracle::new(alloc, self.width(drawn))?;
        match self {
            Kind::Diagrams => oracle.add_diagrams(alloc, diagrams, 0)?,
            Kind::Clauses => oracle.add_clauses(alloc, clauses, 0)?,
            Kind::Groups => oracle.add_groups(alloc, groups, 0)?,
            Kind::Shift => {
                oracle.add_diagrams(alloc, diagrams, by)?;
                oracle.add_clauses(alloc, clauses, by)?;
            }
            Kind::Pair => {
                oracle.add_clauses(alloc, clauses, 0)?;
                oracle.add_groups(alloc, groups, 0)?;
            }
            Kind::Quote => {
                oracle.add_diagrams(alloc, diagrams, by)?;
                oracle.add_clauses(alloc, clauses, 0)?;
                oracle.add_groups(alloc, groups, 0)?;
            }
            Kind::Pairs => {
                oracle.add_clauses(alloc, clauses, 0)?;
                oracle.add_groups(alloc, groups, by)?;
                oracle.add_diagrams(alloc, diagrams, 0)?;
                oracle.add_clauses(alloc, clauses, 0)?;
            }
            Kind::Lazy => {
                oracle.add_clauses(alloc, clauses, 0)?;
                oracle.add_groups(alloc, groups, 0)?;
                oracle.add_diagrams(alloc, diagrams, 0)?;
            }
        }
        Ok(oracle)
    }
}

impl fmt::Display for Kind {
    fn fmt<W: fmt::Write>(&self, f: &mut fmt::Formatter<W>) -> fmt::Result {
        f.write_str(match self {
            Kind::Diagrams => "diagrams",
            Kind::Clauses => "clauses",
            Kind::Groups => "groups",
            Kind::Shift => "a shifted pair of diagrams and clauses",
            Kind::Pair => "a pair of clauses and groups",
            Kind::Quote => "a quote's bank",
            Kind::Pairs => "a pair of pairs",
            Kind::Lazy => "a pair of a lazy bank and diagrams",
        })
    }
}
