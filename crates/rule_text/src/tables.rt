// The three tables that a rule text fills, and what its lines said beside their rules.
// What holds between them stands in the type: no tables in hand are of different widths.
ghost use Rattle.std.specs.Prelude.{◌≡◌, ◌<◌};
ghost use Rattle.rule_text.specs.Kinds.{stage_of};

use crate::kind::Kind;
use bank::table_fault::TableFault;
use clauses::table::Clauses;
use diagrams::row::Row;
use diagrams::table::Diagrams;
use groups::table::Groups;
use groups::text::GroupText;

#[derive(Drop)]
pub struct Tables<'a> {
    // the kind of the last line that was read
    pub(crate) last: Option<Kind>,
    // the number of options
    pub width: usize,
    // the first option of the diagrams' block
    pub first: usize,
    pub diagrams: Diagrams<'a>,
    pub clauses: Clauses,
    pub groups: Groups,
    ghost even: { (clauses.width ≡ width) × (groups.width ≡ width) },
    // no row stands there before the lines of the rows
    ghost early: { stage_of last < 3 → diagrams.used ≡ 0 },
}

impl<'a> Tables<'a> {
    ghost use Rattle.std.specs.Prelude.{OnErr, OnOk};
    ghost use Rattle.bank.specs.Numbers.{located};
    ghost use Rattle.bank.specs.Checks.{width_cause};
    ghost use Rattle.rule_text.specs.Catalogue.{bare, no_catalogue};
    ghost use Rattle.rule_text.specs.View.{catalogue_of};
    ghost use Rattle.rule_text.specs.Lending.{Lent};

    // Tables of one option, before the first line. The rows of the diagrams will stand in the lent memory.
    pub fn empty(rows: &'a mut [Row]) -> Tables<'a>
        ensures opened { catalogue_of result ≡ no_catalogue }
        ensures rows { result.diagrams.rows.now ≡ rows.old }
        ensures lent { result.diagrams.rows.ghost_name ≡ rows.entry.ghost_name }
    {
        Tables {
            last: None,
            width: 1,
            first: 0,
            diagrams: Diagrams::empty(rows),
            clauses: Clauses::empty(),
            groups: Groups::empty(),
        }
    }

    // The same over the memory of a table that a caller has, whatever stands in it.
    #[tactic(auto, using(crate::proofs::Lending::lent_front))]
    pub fn of(diagrams: Diagrams<'a>) -> Tables<'a>
        ensures opened { catalogue_of result ≡ no_catalogue }
        ensures lent { Lent diagrams.entry result.diagrams }
    {
        Tables::empty(diagrams.rows)
    }

    // Opens all three over `width` options, before the first line. At a refusal they stay as they stood.
    #[tactic(auto, using(crate::proofs::Openings::no_diagrams, crate::proofs::Openings::no_clauses, crate::proofs::Openings::no_groups, crate::proofs::Lending::lent_kept, crate::proofs::Lending::lent_front))]
    pub(crate) fn open(&mut self, width: usize) -> Result<(), TableFault>
        ensures answer { located result ≡ width_cause width }
        ensures opened { OnOk result (catalogue_of self.new ≡ bare 0 width) }
        ensures refused { OnErr result (catalogue_of self.new ≡ catalogue_of self.old) }
        ensures lent { Lent self.old.diagrams self.new.diagrams }
    {
        let clauses: [&[u32]; 0] = [];
        let groups: [GroupText<'_>; 0] = [];
        self.diagrams.open(width, &[], &[])?;
        self.clauses.open(width, &clauses)?;
        self.groups.open(width, &groups)?;
        self.last = None;
        self.width = width;
        self.first = 0;
        Ok(())
    }
}
