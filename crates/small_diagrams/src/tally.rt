// How many tables and answers were tried so far, and how many answers were wrong.
// The loops count rules, rows and values tables through by their numbers: no slice holds them.
use crate::by_builds::agrees;
use crate::tables::{row_of, values_of};
use bank::rule_bank::RuleBank;
use diagram_bank::rules::DiagramRules;
use diagrams::row::Row;
use diagrams::table::Diagrams;
use std::fmt;

#[derive(Default, Drop)]
pub struct Tally {
    tables: u64,
    answers: u64,
    wrong: u64,
}

impl Tally {
    // Every root of the table, under every values table.
    fn try_table(&mut self, table: &Diagrams<'_>) {
        self.tables = self.tables.saturating_add(1);
        let rules = DiagramRules { table };
        for rule in 0..rules.count() {
            for code in 0..27 {
                self.answers = self.answers.saturating_add(1);
                if !agrees(&rules, rule, &values_of(code)) {
                    self.wrong = self.wrong.saturating_add(1);
                }
            }
        }
    }

    // The table of these rows with every node as a root, if it is lawful.
    pub fn try_rows(&mut self, rows: &[Row]) {
        let mut memory = [row_of(0, 0); 3];
        let mut table = Diagrams::empty(&mut memory);
        if table.open(3, rows, &[]).is_err() {
            return;
        }
        for node in 0..5 {
            let _ = table.add_root(node);
        }
        self.try_table(&table);
    }

    // Every table of up to three rows that begins with these two.
    fn try_after_two(&mut self, first: Row, second: Row) {
        self.try_rows(&[first, second]);
        for code in 0..48 {
            self.try_rows(&[first, second, row_of(2, code)]);
        }
    }

    // Every table of up to three rows that begins with this one.
    pub fn try_after_one(&mut self, first: Row) {
        self.try_rows(&[first]);
        for code in 0..27 {
            self.try_after_two(first, row_of(1, code));
        }
    }
}

impl fmt::Display for Tally {
    fn fmt<W: fmt::Write>(&self, f: &mut fmt::Formatter<W>) -> fmt::Result {
        write!(
            f,
            "{} lawful tables, {} answers compared with trying all builds, {} wrong",
            self.tables, self.answers, self.wrong
        )
    }
}
