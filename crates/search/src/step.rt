// One step of a search: which one is needed, and taking it.
ghost use Rattle.std.specs.Prelude.{ℕ, List, Some};
ghost use Rattle.search_theory.specs.Searches.{quest};
ghost use Rattle.trail.specs.View.{trail_of, store_of};
ghost use Rattle.quiet.specs.Readers.{Reading};
ghost use Rattle.search.specs.Finding.{AllInside, Needs, Hushed};
ghost use Rattle.search.specs.Standing.{point_of, Standing, Taken};

use crate::backjump::NoDecision;
use crate::propagate::{Finding, Mark};
use crate::search::Search;
use bank::rule_bank::RuleBank;
use quiet::quiet::Quiet;
use quiet::readers::Readers;
use trail::entry::Source;

// The step that is next: this rule is dead; this one marks this open option; or neither, and this option is the lowest open one.
#[derive(Clone, Copy, Drop)]
pub enum Next {
    Conflict(Source),
    Implication(Mark, Source),
    Decision(usize),
}

impl Search {
    // The step that is needed next, or none: all options are valued, and no rule is dead.
    pub(crate) fn next_step<B: RuleBank>(
        &self,
        b: &B,
        readers: &Readers,
        quiet: &mut Quiet,
    ) -> Option<Next>
        ensures needs { Reading (B.meaning b.now) (B.reading b.now) readers.now.rules → Hushed (B.meaning b.now) quiet.old → AllInside (B.meaning b.now).width (store_of self.now.learnt)
            → Needs (B.meaning b.now) (store_of self.now.learnt) (trail_of self.now.trail.entries) result }
        ensures hushed { Reading (B.meaning b.now) (B.reading b.now) readers.now.rules → Hushed (B.meaning b.now) quiet.old → Hushed (B.meaning b.now) quiet.new }
    {
        match self.propagate(b, readers, quiet) {
            Some((Finding::Dead, source)) => Some(Next::Conflict(source)),
            Some((Finding::Marks(mark), source)) => Some(Next::Implication(mark, source)),
            None => self.trail.lowest_open(b.width()).map(Next::Decision),
        }
    }

    // Takes the step.
    pub(crate) fn take_step<B: RuleBank>(&mut self, b: &B, next: Next) -> Result<(), NoDecision>
        ensures { (ps : List ℕ) → Standing (B.meaning b.now) ps self.old → Needs (B.meaning b.now) (store_of self.old.learnt) (trail_of self.old.trail.entries) (Some next)
            → Taken (quest (B.meaning b.now) ps) (point_of self.old) (point_of self.new) result × Standing (B.meaning b.now) ps self.new }
    {
        // a match: the steps are what the theory speaks of by name, and a closure for each would hide them
        match next {
            Next::Conflict(source) => {
                let clash = self.reason(b, source, Finding::Dead);
                return self.backjump(clash, b.width());
            }
            Next::Implication(mark, source) => {
                let support = self.reason(b, source, Finding::Marks(mark));
                self.trail.imply(mark.option, mark.value, source, support);
            }
            Next::Decision(option) => self.trail.decide(option),
        }
        Ok(())
    }
}
