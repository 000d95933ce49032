// The clause bank behind the interface of every rule bank: each clause is a rule, and its marks are exact.
ghost use Rattle.std.specs.Prelude.{◌≡◌, ℕ, ◌<◌};
ghost use Rattle.option_set.specs.Sets.{member};
ghost use Rattle.clauses.specs.Literals.{numbers, names};
ghost use Rattle.clauses.specs.Table.{rules_of};
ghost use Rattle.clauses.specs.Meaning.{clauses_bank, clauses_duties, clauses_reading, clauses_local};

use crate::literal::Literal;
use crate::mark::mark_clause;
use crate::table::Clauses;
use bank::asked::check_asked;
use bank::refusal::{Answer, Refusal};
use bank::rule_bank::RuleBank;
use option_set::OptionSet;

// The options that the literals are of.
fn options_of(literals: &[Literal]) -> OptionSet
    ensures { (o : ℕ) → o < 128 → member result.members o ≡ names (numbers literals.now) o }
{
    OptionSet::of(literals)
}

impl RuleBank for Clauses {
    ghost meaning = { λ s. clauses_bank s.width (rules_of s.clauses) };

    ghost duties = { λ s. clauses_duties s.width (rules_of s.clauses) s.sized.0 s.sized.1 s.sized.2 };

    ghost reading = { λ s. clauses_reading (rules_of s.clauses) };

    ghost local = { λ s. clauses_local s.width (rules_of s.clauses) };

    fn width(&self) -> usize {
        self.width
    }

    #[tactic(auto, using(crate::proofs::Tables::length_rules))]
    fn count(&self) -> usize {
        self.clauses.len()
    }

    #[tactic(auto, unfolding(crate::specs::Table::rules_of))]
    fn reads(&self, rule: usize) -> OptionSet {
        self.clauses
            .get(rule)
            .map_or(OptionSet::empty(), |clause| options_of(clause.literals()))
    }

    #[inline(always)]
    #[tactic(auto, using(crate::proofs::Tables::length_rules))]
    fn mark(&self, rule: usize, values: &[u8], marks: &mut [u8]) -> Result<Answer, Refusal> {
        let w = self.width;
        let count = self.clauses.len();
        check_asked(w, count, rule, values, marks.len())?;
        Ok(mark_clause(self.clauses[rule].literals(), &values[..w], &mut marks[..w]))
    }
}
