// Gives a clause bank its rules, all at once or one by one, and leaves it as it stood at a refusal.
// `map (λ x. x.now)` of the clauses handed in is what the borrowed slices hold; a name for it would be no shorter.
ghost use Rattle.std.specs.Prelude.{◌≡◌, ◌<◌, ◌≤◌, true, [], ◌∷◌, ◌++◌, map, length, OnErr};
ghost use Rattle.bank.specs.Numbers.{located};
ghost use Rattle.bank.specs.Checks.{or_kept};
ghost use Rattle.clauses.specs.Literals.{within as within_of};
ghost use Rattle.clauses.specs.Table.{rules_of};
ghost use Rattle.clauses.specs.Opening.{Opens, open_cause, add_cause, room_cause};

use crate::clause::Clause;
use crate::limits::{check_clauses, too_many, within};
use crate::table::Clauses;
use arrayvec::ArrayVec;
use bank::check::refused_at;
use bank::table_fault::{TableCause, TableFault};

// Writes one clause more into the table.
#[tactic(auto, unfolding(crate::specs::Table::rules_of))]
fn put(table: &mut ArrayVec<Clause<32>, 512>, literals: &[u32])
    requires room { length (rules_of table.old) < 512 }
    requires short { length literals.now ≤ 32 }
    requires inside { within_of 128 literals.now ≡ true }
    ensures { rules_of table.new ≡ rules_of table.old ++ literals.now ∷ [] }
{
    table.push(Clause::of(literals));
}

// Writes the clauses into the table, in place of those that it has.
#[tactic(auto, using(crate::proofs::Openings::lent_short, crate::proofs::Openings::lent_inside), unfolding(crate::specs::Table::rules_of))]
fn fill(table: &mut ArrayVec<Clause<32>, 512>, clauses: &[&[u32]])
    requires { Opens 128 (map (λ x. x.now) clauses.now) }
    ensures { rules_of table.new ≡ map (λ x. x.now) clauses.now }
{
    table.clear();
    for literals in clauses {
        put(table, literals);
    }
}

impl Clauses {
    // A bank of one option and no rule.
    #[tactic(auto, unfolding(crate::specs::Table::rules_of))]
    pub fn empty() -> Clauses
        ensures width { result.width ≡ 1 }
        ensures rules { rules_of result.clauses ≡ [] }
    {
        Clauses {
            width: 1,
            clauses: ArrayVec::new(),
        }
    }

    // Whether one clause more of so many literals has a place.
    #[tactic(auto, using(crate::proofs::Tables::length_rules), unfolding(bank::specs::Checks::refused_at))]
    pub fn room_for(&self, literals: usize) -> Result<(), TableFault>
        ensures { located result ≡ room_cause (length (rules_of self.now.clauses)) literals }
    {
        let item = self.clauses.len();
        let full = too_many(item, literals);
        refused_at(TableCause::TooMany, full.then_some(item))
    }

    // Whether these literals may be one clause more, and if not, why.
    #[tactic(auto, using(crate::proofs::Tables::length_rules), unfolding(crate::specs::Opening::add_cause, bank::specs::Checks::and_then))]
    fn check_clause(&self, literals: &[u32]) -> Result<(), TableFault>
        ensures { located result ≡ add_cause self.now.width (length (rules_of self.now.clauses)) literals.now }
    {
        self.room_for(literals.len())?;
        let item = self.clauses.len();
        let outside = !within(literals, self.width);
        refused_at(TableCause::OptionTooLarge, outside.then_some(item))
    }

    // One clause more. At a refusal the bank stays as it stood.
    #[tactic(auto, using(crate::proofs::Openings::clear_add))]
    pub fn add(&mut self, literals: &[u32]) -> Result<(), TableFault>
        ensures value { located result ≡ add_cause self.old.width (length (rules_of self.old.clauses)) literals.now }
        ensures width { self.new.width ≡ self.old.width }
        ensures rules { rules_of self.new.clauses ≡ or_kept (add_cause self.old.width (length (rules_of self.old.clauses)) literals.now) (rules_of self.old.clauses) (rules_of self.old.clauses ++ (literals.now ∷ [])) }
        ensures refused { OnErr result (self.new ≡ self.old) }
    {
        self.check_clause(literals)?;
        put(&mut self.clauses, literals);
        Ok(())
    }

    // The bank of these clauses over `width` options. At a refusal it stays as it stood.
    #[tactic(auto, using(crate::proofs::Openings::clear_open, crate::proofs::Literals::all_within_from))]
    pub fn open(&mut self, width: usize, clauses: &[&[u32]]) -> Result<(), TableFault>
        ensures value { located result ≡ open_cause width (map (λ x. x.now) clauses.now) }
        ensures width { self.new.width ≡ or_kept (open_cause width (map (λ x. x.now) clauses.now)) self.old.width width }
        ensures rules { rules_of self.new.clauses ≡ or_kept (open_cause width (map (λ x. x.now) clauses.now)) (rules_of self.old.clauses) (map (λ x. x.now) clauses.now) }
        ensures refused { OnErr result (self.new ≡ self.old) }
    {
        check_clauses(width, clauses)?;
        fill(&mut self.clauses, clauses);
        self.width = width;
        Ok(())
    }
}
