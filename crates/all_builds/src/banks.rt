// Makes the bank of a kind from the drawn tables, and tries all that is promised of it and of sessions over it.
use crate::bounds::try_bounds;
use crate::drawn::Drawn;
use crate::kind::Kind;
use crate::lazy::Lazy;
use crate::marks::{try_marks, try_shape};
use crate::memory::try_memory;
use crate::opened::{open_clauses, open_diagrams, open_groups};
use crate::oracle::Oracle;
use crate::random::Random;
use crate::runs::try_run;
use crate::tally::Tally;
use crate::variants::try_all_variants;
use anyhow::Context;
use bank::rule_bank::RuleBank;
use clauses::table::Clauses;
use diagram_bank::rules::DiagramRules;
use diagrams::row::Row;
use diagrams::table::Diagrams;
use groups::table::Groups;
use layers::pair::Pair;
use layers::shift::Shift;
use std::alloc::Global;

// More rows than are drawn for any table.
const ROWS: usize = 32;

// Everything but the marks, which not every bank owes in full.
fn try_sessions<B: RuleBank>(
    alloc: Global,
    b: &B,
    oracle: &Oracle,
    random: &mut Random,
    tally: &mut Tally,
) -> anyhow::Result<()> {
    try_shape(b, oracle, random, tally)?;
    let ledger = try_run(alloc, b, oracle, random, tally).context("a run")?;
    try_bounds(b, oracle, &ledger, random, tally).context("bounds")?;
    try_memory(b, oracle, random, tally).context("memory")
}

// A bank that marks everything that the definition marks.
fn try_exact<B: RuleBank>(
    alloc: Global,
    b: &B,
    oracle: &Oracle,
    random: &mut Random,
    tally: &mut Tally,
) -> anyhow::Result<()> {
    try_marks(b, oracle, random, tally)?;
    try_sessions(alloc, b, oracle, random, tally)
}

// The three tables, opened.
#[derive(Clone, Copy)]
struct Opened<'b, 'a> {
    rules: DiagramRules<'b, 'a>,
    clauses: &'b Clauses,
    groups: &'b Groups,
}

impl<'b, 'a> Opened<'b, 'a> {
    // The bank of the kind.
    fn try_kind(
        &self,
        alloc: Global,
        kind: Kind,
        by: usize,
        oracle: &Oracle,
        random: &mut Random,
        tally: &mut Tally,
    ) -> anyhow::Result<()> {
        let rules = self.rules;
        let clauses = self.clauses;
        let groups = self.groups;
        match kind {
            Kind::Diagrams => try_exact(alloc, &rules, oracle, random, tally),
            Kind::Clauses => try_exact(alloc, clauses, oracle, random, tally),
            Kind::Groups => try_exact(alloc, groups, oracle, random, tally),
            Kind::Shift => {
                let bank = Shift::new(Pair::new(rules, clauses), by);
                try_exact(alloc, &bank, oracle, random, tally)
            }
            Kind::Pair => try_exact(alloc, &Pair::new(clauses, groups), oracle, random, tally),
            Kind::Quote => {
                let bank = Pair::new(Shift::new(rules, by), Pair::new(clauses, groups));
                try_exact(alloc, &bank, oracle, random, tally)
            }
            Kind::Pairs => {
                let first = Pair::new(clauses, Shift::new(groups, by));
                let bank = Pair::new(first, Pair::new(rules, clauses));
                try_exact(alloc, &bank, oracle, random, tally)
            }
            Kind::Lazy => {
                let lazy = Lazy {
                    bank: Pair::new(clauses, groups),
                };
                try_sessions(alloc, &Pair::new(lazy, rules), oracle, random, tally)
            }
        }
    }
}

// A bank of drawn tables with its oracle.
pub fn try_drawn(
    alloc: Global,
    kind: Kind,
    drawn: &Drawn,
    oracle: &Oracle,
    random: &mut Random,
    tally: &mut Tally,
) -> anyhow::Result<()> {
    let mut memory = [Row::default(); ROWS];
    let mut diagrams = Diagrams::empty(&mut memory);
    open_diagrams(random, &drawn.diagrams, &mut diagrams)?;
    let clauses = open_clauses(alloc, random, &drawn.clauses)?;
    let groups = open_groups(alloc, random, &drawn.groups)?;
    if kind == Kind::Diagrams {
        try_all_variants(&diagrams, oracle, random, tally)?;
    }
    let opened = Opened {
        rules: DiagramRules { table: &diagrams },
        clauses: &clauses,
        groups: &groups,
    };
    opened.try_kind(alloc, kind, drawn.by, oracle, random, tally)
}
