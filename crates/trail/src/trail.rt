// The trail: one entry for each option, none where it is open, and how many decisions stand. A search begins with the picks alone.
// The values stand in two sets besides, kept in step with the entries, so that a learnt clause is tested in a few operations.
ghost use Rattle.std.specs.Prelude.{◌≡◌, ◌<◌, List, Option, length, slice_set};
ghost use Rattle.clauses.specs.TwoSets.{InStep};
ghost use Rattle.search_theory.specs.Searches.{values_from};
ghost use Rattle.trail.specs.Entries.{trail_of};
ghost use Rattle.trail.specs.declared.entry.Entry.{Entry as Row};

use crate::entry::{Entry, shown};
use clauses::value_sets::ValueSets;
use option_set::OptionSet;
use std::array;

// Room for every option that a bank can have, so that no call fails for want of memory.
#[derive(Drop)]
pub struct Trail {
    pub(crate) entries: [Option<Entry>; 128],
    pub(crate) depth: u8,
    pub(crate) value_sets: ValueSets,
    ghost sized: { length entries ≡ 128 },
    ghost in_step: { InStep value_sets (values_from 128 0 (trail_of entries)) },
}

// The sets of values once the option has this entry.
fn with_entry(value_sets: ValueSets, option: usize, entry: Option<Entry>) -> ValueSets
    ensures { (t : List (Option Row)) → length t ≡ 128 → option < 128 → InStep value_sets (values_from 128 0 (trail_of t)) → InStep result (values_from 128 0 (trail_of (slice_set t option entry))) }
{
    match entry {
        Some(entry) => value_sets.give(option, entry.value()),
        None => value_sets.take_back(option),
    }
}

impl Trail {
    ghost use Rattle.std.specs.Prelude.{ℕ, map, replicate, Some, None, option_map, slice_index_or};
    ghost use Rattle.search_theory.specs.Trails.{level as level_of};
    ghost use Rattle.search_theory.specs.Searches.{shown as shown_of};
    ghost use Rattle.trail.specs.declared.entry.Entry.TheVariants.{Picked};
    ghost use Rattle.search_theory.specs.Values.{value_number};
    ghost use Rattle.option_set.specs.Sets.{member};
    ghost use Rattle.search_theory.specs.Jumps.{is_decision};
    ghost use Rattle.trail.specs.Support.{supports};
    ghost use Rattle.trail.specs.Building.{handed};
    ghost use Rattle.trail.specs.Beginning.{Begun};

    // The trail with every option open.
    pub fn new() -> Trail
        ensures table { result.entries ≡ replicate 128 None }
        ensures depth { result.depth ≡ 0 }
    {
        Trail {
            entries: [None; 128],
            depth: 0,
            value_sets: ValueSets::empty(),
        }
    }

    // Starts anew from the picks.
    pub fn begin(&mut self, picks: &[Option<bool>; 128])
        ensures table { self.new.entries ≡ map (option_map Picked) picks.now }
        ensures depth { self.new.depth ≡ 0 }
        ensures begun { Begun (map value_number picks.now) self.new }
    {
        let mut value_sets = self.value_sets;
        // written in place: a table that `from_fn` hands over is copied three times on its way, 24 KiB of stack
        for (option, entry) in self.entries.iter_mut().enumerate() {
            *entry = picks[option].map(Entry::Picked);
            value_sets = with_entry(value_sets, option, *entry);
        }
        self.value_sets = value_sets;
        self.depth = 0;
    }

    // The option's entry; past the table every option is open.
    pub fn entry(&self, option: usize) -> Option<Entry>
        ensures { result ≡ slice_index_or self.now.entries option None }
    {
        *self.entries.get(option)?
    }

    // Whether the option's value is a decision.
    pub fn is_decision(&self, option: usize) -> bool
        ensures { result ≡ is_decision (trail_of self.now.entries option) }
    {
        matches!(self.entry(option), Some(Entry::Decided(_)))
    }

    // How many decisions the option's value stands on; an open option stands on none.
    pub fn level(&self, option: usize) -> u8
        ensures { result ≡ level_of (trail_of self.now.entries option) }
    {
        self.entry(option).map_or(0, Entry::level)
    }

    // The picks and decisions that the option's value rests on; an open option rests on none.
    pub fn support(&self, option: usize) -> OptionSet
        ensures { (h : ℕ) → h < 128 → member result.members h ≡ supports self.now.entries option h }
    {
        match self.entry(option) {
            Some(entry) => entry.support(option),
            None => OptionSet::empty(),
        }
    }

    // The option's value, if it has one.
    pub fn value(&self, option: usize) -> Option<bool>
        ensures { value_number result ≡ shown_of (trail_of self.now.entries option) }
    {
        self.entry(option).map(Entry::value)
    }

    // The values of all options. They are numbers, as a bank's `mark` reads them: a caller of it may hand in a wrong one.
    // By `from_fn`, since an array's `map` first moves the whole table into an iterator.
    pub fn values(&self) -> [u8; 128]
        ensures { result ≡ values_from 128 0 (trail_of self.now.entries) }
    {
        array::from_fn(|option| shown(self.entries[option]))
    }

    // The values of all options as two sets.
    pub fn value_sets(&self) -> ValueSets
        ensures { InStep result (values_from 128 0 (trail_of self.now.entries)) }
    {
        self.value_sets
    }

    // Gives the option the entry, where the table has such an option; no other entry changes.
    // By index: of a slice's `get_mut` a proof does not know what was written through it.
    #[tactic(auto, using(std::proofs::lemmas::List::set_past))]
    pub(crate) fn write(&mut self, option: usize, entry: Entry)
        ensures table { self.new.entries ≡ slice_set self.old.entries option (Some entry) }
        ensures depth { self.new.depth ≡ self.old.depth }
    {
        if option < self.entries.len() {
            self.entries[option] = Some(entry);
            self.value_sets = with_entry(self.value_sets, option, Some(entry));
        }
    }

    // Writes the build that the trail reads into the first `width` places; what is open reads 0. A place that is too short stays:
    // a completion does not fail for it, since its caller has the verdict all the same.
    pub fn write_build(&self, width: usize, place: &mut [u8])
        ensures { place.new ≡ handed width (trail_of self.now.entries) place.old }
    {
        if place.len() < width {
            return;
        }
        // numbered by `enumerate`: `iter_mut().zip(..)` was tried, and a proof then knows nothing of what was written (c)
        for (option, bit) in place[..width].iter_mut().enumerate() {
            *bit = self.entry(option).is_some_and(Entry::value) as u8;
        }
    }
}
