// The rule bank over a table of diagrams. It holds the table by a shared reference, so that it can be copied
// and put into other banks and into a session, while the table keeps the memory that was lent to it.
// A type of its own and no `impl RuleBank for Diagrams`: trait and table are of other crates, and Rust lets a third join them only so.
ghost use Rattle.std.specs.Prelude.{◌≡◌, ℕ};
ghost use Rattle.option_set.specs.Sets.{member};
ghost use Rattle.diagram_theory.specs.Rules.{table_bank, table_reading};
ghost use Rattle.diagram_theory.proofs.Reading.{table_duties, table_local};

use crate::marking::mark_rule;
use bank::asked::check_asked;
use bank::refusal::{Answer, Refusal};
use bank::rule_bank::RuleBank;
use diagrams::table::Diagrams;
use option_set::OptionSet;

// The options that a rule of the table reads; none where there is no such rule.
fn options_read(table: &Diagrams<'_>, rule: usize) -> OptionSet
    ensures { (o : ℕ) → member result.members o ≡ table_reading table.now rule o }
{
    table
        .roots
        .get(rule)
        .map_or(OptionSet::empty(), |root| root.reads)
}

#[derive(Clone, Copy)]
pub struct DiagramRules<'b, 'a> {
    pub table: &'b Diagrams<'a>,
}

impl<'b, 'a> RuleBank for DiagramRules<'b, 'a> {
    ghost meaning = { λ s. table_bank s.table.now };

    ghost duties = { λ s. table_duties s.table.now };

    ghost reading = { λ s. table_reading s.table.now };

    ghost local = { λ s. table_local s.table.now };

    fn width(&self) -> usize {
        self.table.width
    }

    fn count(&self) -> usize {
        self.table.roots.len()
    }

    fn reads(&self, rule: usize) -> OptionSet {
        options_read(self.table, rule)
    }

    fn mark(&self, rule: usize, values: &[u8], marks: &mut [u8]) -> Result<Answer, Refusal> {
        let w = self.table.width;
        check_asked(w, self.table.roots.len(), rule, values, marks.len())?;
        mark_rule(self.table, rule, &values[0..w], &mut marks[0..w])
    }
}
