// One rule line: what its fields say goes into the table of its kind. A line at fault changes nothing.
// `Grown` here and `Lent` of whole texts tell of the memory that the rows are lent: of two values, before and after, and no type holds that.
ghost use Rattle.std.specs.Prelude.{◌≡◌, true, OnErr};
ghost use Rattle.diagrams.specs.Causes.{room_of};
ghost use Rattle.lines.specs.Said.{line_of};
ghost use Rattle.texts.specs.Causes.{line_said};
ghost use Rattle.texts.specs.Fields.{plain_line};
ghost use Rattle.rule_text.specs.Kinds.{rank_of, stage_of};
ghost use Rattle.rule_text.specs.RuleLines.{in_turn, read_width, read_block, read_row, read_root, read_clause, read_group, read_kind, read_rule};
ghost use Rattle.rule_text.specs.View.{catalogue_of};
ghost use Rattle.rule_text.specs.Lending.{Grown};

use crate::kind::{Kind, first_kind, in_turn};
use crate::tables::Tables;
use bank::check::refused_at;
use bank::table_fault::TableCause;
use diagrams::row::Row;
use groups::text::GroupText;
use lines::line::Line;
use texts::faults::{Cause, LineFault};
use texts::line_fields::{first_fields, rest_fields, whole_fields};

impl<'a> Tables<'a> {
    // W: the number of options. The block of the diagrams is all of them, until an S line says otherwise.
    fn read_width(&mut self, line: Line<'_>) -> Result<(), Cause>
        requires turn { in_turn (stage_of self.old.last) 1 ≡ true }
        ensures answer { line_said result (catalogue_of self.new) ≡ plain_line 1 (line_of line.entry) (read_width (catalogue_of self.old)) }
        ensures refused { OnErr result (catalogue_of self.new ≡ catalogue_of self.old) }
        ensures grown { Grown self.old.diagrams self.new.diagrams }
    {
        let [width] = whole_fields::<1>(line)?;
        self.open(width as usize)?;
        self.last = Some(Kind::Width);
        Ok(())
    }

    // S: the block of the diagrams, which ends within the options.
    #[tactic(auto, using(crate::proofs::Openings::block_opens))]
    fn read_block(&mut self, line: Line<'_>) -> Result<(), Cause>
        requires turn { in_turn (stage_of self.old.last) 2 ≡ true }
        ensures answer { line_said result (catalogue_of self.new) ≡ plain_line 2 (line_of line.entry) (read_block (catalogue_of self.old)) }
        ensures refused { OnErr result (catalogue_of self.new ≡ catalogue_of self.old) }
        ensures grown { Grown self.old.diagrams self.new.diagrams }
    {
        let [first, size] = whole_fields::<2>(line)?;
        let first = first as usize;
        let size = size as usize;
        let outside = size == 0 || first + size > self.width;
        refused_at(TableCause::BlockOutside, outside.then_some(0))?;
        self.diagrams.open(size, &[], &[])?;
        self.first = first;
        self.last = Some(Kind::Block);
        Ok(())
    }

    // N: one row more.
    #[tactic(auto, using(crate::proofs::RowFronts::row_front, crate::proofs::RowFronts::row_added, crate::proofs::Lending::grown_row))]
    fn read_row(&mut self, line: Line<'_>) -> Result<(), Cause>
        ensures answer { line_said result (catalogue_of self.new) ≡ plain_line 3 (line_of line.entry) (read_row (room_of self.old.diagrams.rows.now) (catalogue_of self.old)) }
        ensures refused { OnErr result (catalogue_of self.new ≡ catalogue_of self.old) }
        ensures grown { Grown self.old.diagrams self.new.diagrams }
    {
        let [option, low, high] = whole_fields::<3>(line)?;
        self.diagrams.add_row(Row { option, low, high })?;
        self.last = Some(Kind::Row);
        Ok(())
    }

    // D: one root more.
    fn read_root(&mut self, line: Line<'_>) -> Result<(), Cause>
        ensures answer { line_said result (catalogue_of self.new) ≡ plain_line 1 (line_of line.entry) (read_root (catalogue_of self.old)) }
        ensures refused { OnErr result (catalogue_of self.new ≡ catalogue_of self.old) }
        ensures grown { Grown self.old.diagrams self.new.diagrams }
    {
        let [node] = whole_fields::<1>(line)?;
        self.diagrams.add_root(node)?;
        self.last = Some(Kind::Root);
        Ok(())
    }

    // C: one clause more. Whether there is room for it is asked before its literals are read.
    #[tactic(auto, unfolding(bank::specs::Checks::refused_at))]
    fn read_clause(&mut self, line: Line<'_>) -> Result<(), Cause>
        ensures answer { line_said result (catalogue_of self.new) ≡ read_clause (catalogue_of self.old) (line_of line.entry) }
        ensures refused { OnErr result (catalogue_of self.new ≡ catalogue_of self.old) }
        ensures grown { Grown self.old.diagrams self.new.diagrams }
    {
        let [count] = first_fields::<1>(line)?;
        let count = count as usize;
        self.clauses.room_for(count)?;
        let literals = rest_fields(line, 1, count)?;
        self.clauses.add(&literals)?;
        self.last = Some(Kind::Clause);
        Ok(())
    }

    // K: one group more, likewise.
    #[tactic(auto, unfolding(bank::specs::Checks::refused_at))]
    fn read_group(&mut self, line: Line<'_>) -> Result<(), Cause>
        ensures answer { line_said result (catalogue_of self.new) ≡ read_group (catalogue_of self.old) (line_of line.entry) }
        ensures refused { OnErr result (catalogue_of self.new ≡ catalogue_of self.old) }
        ensures grown { Grown self.old.diagrams self.new.diagrams }
    {
        let [lo, hi, count] = first_fields::<3>(line)?;
        let count = count as usize;
        self.groups.room_for(count)?;
        let options = rest_fields(line, 3, count)?;
        self.groups.add(&GroupText {
            lo,
            hi,
            options: &options,
        })?;
        self.last = Some(Kind::Group);
        Ok(())
    }

    // A line of a kind that may stand here. A match: each kind fills another table, and closures of one type would have to take them all.
    // `?` and `Ok(())`, here and in `read_rule`: a result that is handed on whole is copied for each line.
    fn read_kind(&mut self, kind: Kind, line: Line<'_>) -> Result<(), Cause>
        requires turn { in_turn (stage_of self.old.last) (rank_of kind) ≡ true }
        ensures answer { line_said result (catalogue_of self.new) ≡ read_kind (room_of self.old.diagrams.rows.now) (rank_of kind) (catalogue_of self.old) (line_of line.entry) }
        ensures refused { OnErr result (catalogue_of self.new ≡ catalogue_of self.old) }
        ensures grown { Grown self.old.diagrams self.new.diagrams }
    {
        match kind {
            Kind::Width => self.read_width(line)?,
            Kind::Block => self.read_block(line)?,
            Kind::Row => self.read_row(line)?,
            Kind::Root => self.read_root(line)?,
            Kind::Clause => self.read_clause(line)?,
            Kind::Group => self.read_group(line)?,
        }
        Ok(())
    }

    // One line, after those that were read before.
    #[tactic(auto, unfolding(crate::specs::RuleLines::read_rule))]
    pub(crate) fn read_rule(&mut self, line: Line<'_>) -> Result<(), Cause>
        ensures answer { line_said result (catalogue_of self.new) ≡ read_rule (room_of self.old.diagrams.rows.now) (catalogue_of self.old) (line_of line.entry) }
        ensures refused { OnErr result (catalogue_of self.new ≡ catalogue_of self.old) }
        ensures grown { Grown self.old.diagrams self.new.diagrams }
    {
        let kind = first_kind(line.bytes).ok_or(LineFault::Letter)?;
        if !in_turn(self.last, kind) {
            return Err(Cause::Line(LineFault::Letter));
        }
        self.read_kind(kind, line)?;
        Ok(())
    }
}
