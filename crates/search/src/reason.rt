// Reasons: the picks and decisions that a rule's answer rests on. A rule is told by the values that it reads alone,
// so these are all that stands behind those values, and behind no more of them than the rule needs.
ghost use Rattle.std.specs.Prelude.{◌≡◌, ℕ, ◌<◌, ◌≤◌};
ghost use Rattle.option_set.specs.Sets.{member};
ghost use Rattle.search_theory.specs.Jumps.{reads_of, valued_in, behind};
ghost use Rattle.search_theory.specs.Searches.{values_from};
ghost use Rattle.trail.specs.View.{source_of, store_of, trail_of};
ghost use Rattle.trail.specs.Support.{supports};
ghost use Rattle.search.specs.Reason.{Inside, SaysAt, Reason};

use crate::propagate::Finding;
use crate::search::Search;
use crate::thin::thin;
use bank::rule_bank::RuleBank;
use option_set::OptionSet;
use trail::entry::Source;
use trail::trail::Trail;

// What the values rest on that the table has of the set's options, of the first `width`.
#[tactic(auto, using(crate::proofs::Gathering::gathered), unfolding(search_theory::specs::Searches::any_below))]
fn support_of(trail: &Trail, options: OptionSet, table: &[u8; 128], width: usize) -> OptionSet
    requires { width ≤ 128 }
    ensures { (h : ℕ) → h < 128 → member result.members h ≡ behind width (valued_in table.now (member options.members)) (supports trail.now.entries) h }
{
    let mut support = OptionSet::empty();
    for option in 0..width {
        if options.contains(option) && table[option] < 2 {
            support = support.union(trail.support(option));
        }
    }
    support
}

impl Search {
    // The options that a rule reads, the bank's or a learnt one.
    fn options_read<B: RuleBank>(&self, b: &B, source: Source) -> OptionSet
        ensures { (o : ℕ) → o < 128 → member result.members o ≡ reads_of (B.reading b.now) (store_of self.now.learnt) (source_of source) o }
    {
        match source {
            Source::Bank(rule) => b.reads(rule),
            Source::Learnt(age) => self.learnt.clause(age).options(),
        }
    }

    // What rests on which that the rule asks for this.
    pub(crate) fn reason<B: RuleBank>(&self, b: &B, source: Source, finding: Finding) -> OptionSet
        ensures { Inside (B.meaning b.now).width finding → SaysAt (B.meaning b.now) (store_of self.now.learnt) (values_from (B.meaning b.now).width 0 (trail_of self.now.trail.entries)) (source_of source) finding
            → Reason (B.meaning b.now) (B.reading b.now) (store_of self.now.learnt) (trail_of self.now.trail.entries) (supports self.now.trail.entries) (source_of source) finding (member result.members) }
    {
        let values = self.trail.values();
        let reads = self.options_read(b, source);
        let table = match source {
            Source::Bank(rule) => thin(b, rule, finding, reads, values),
            // a clause says nothing without all its literals
            Source::Learnt(_) => values,
        };
        support_of(&self.trail, reads, &table, b.width())
    }
}
