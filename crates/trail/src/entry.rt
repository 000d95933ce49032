// One option's entry in the trail: a pick, a decision, or a value that a rule gave with the picks and decisions that it rests on.
ghost use Rattle.std.specs.Prelude.{◌≡◌, ℕ, ◌<◌, Some};
ghost use Rattle.option_set.specs.Sets.{member};
ghost use Rattle.search_theory.specs.Trails.{value as value_of, level as level_of};
ghost use Rattle.search_theory.specs.Searches.{shown as shown_of};
ghost use Rattle.trail.specs.View.{entry_of};
ghost use Rattle.trail.specs.Support.{rests_on};

use option_set::OptionSet;

// The rule that gave a value: the bank's of that number, or a learnt one, counted from the newest as the store then was.
#[derive(Clone, Copy, PartialEq, Eq, Debug, Drop)]
pub enum Source {
    Bank(usize),
    Learnt(usize),
}

// A level is how many decisions stood with the entry, itself included; a pick stands on none, and a decision's value is 0.
// A support is a set of picks and decisions: every build that meets the bank and has the trail's values on them has the entry's value.
#[derive(Clone, Copy, PartialEq, Eq, Drop)]
pub enum Entry {
    Picked(bool),
    Decided(u8),
    Implied {
        value: bool,
        level: u8,
        source: Source,
        support: OptionSet,
    },
}

impl Entry {
    // The option's value.
    pub(crate) fn value(self) -> bool
        ensures { result ≡ value_of (entry_of (Some self)) }
    {
        match self {
            Entry::Picked(value) => value,
            Entry::Decided(_) => false,
            Entry::Implied { value, .. } => value,
        }
    }

    // How many decisions the entry stands on, itself included.
    pub(crate) fn level(self) -> u8
        ensures { result ≡ level_of (entry_of (Some self)) }
    {
        match self {
            Entry::Picked(_) => 0,
            Entry::Decided(level) => level,
            Entry::Implied { level, .. } => level,
        }
    }

    // The picks and decisions that the option's value rests on: a pick and a decision support themselves.
    pub(crate) fn support(self, option: usize) -> OptionSet
        ensures { (h : ℕ) → h < 128 → member result.members h ≡ rests_on option (Some self) h }
    {
        match self {
            Entry::Picked(_) | Entry::Decided(_) => OptionSet::empty().insert(option),
            Entry::Implied { support, .. } => support,
        }
    }
}

// The value as a values table has it: 2 where the option is open.
pub(crate) fn shown(entry: Option<Entry>) -> u8
    ensures { result ≡ shown_of (entry_of entry) }
{
    entry.map_or(2, |entry| entry.value() as u8)
}
