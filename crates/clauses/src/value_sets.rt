// The values of options as two sets: the options that are taken, and those that are left out. The others are open.
// A search keeps them in step with its table of values, so that a clause of two sets is scanned in a few operations.
ghost use Rattle.std.specs.Prelude.{ℕ, ◌≤◌, List, length, replicate, slice_set};
ghost use Rattle.builds.specs.Values.{num};
ghost use Rattle.clauses.specs.TwoSets.{InStep};

use option_set::OptionSet;

// Options from 128 on have no place.
#[derive(Clone, Copy, PartialEq, Eq, Default, Drop)]
pub struct ValueSets {
    pub taken: OptionSet,
    pub left_out: OptionSet,
}

impl ValueSets {
    // Every option is open.
    pub fn empty() -> ValueSets
        ensures { (n : ℕ) → InStep result (replicate n 2) }
    {
        ValueSets {
            taken: OptionSet::empty(),
            left_out: OptionSet::empty(),
        }
    }

    // The option has this value, whatever it had.
    pub fn give(self, option: usize, value: bool) -> ValueSets
        ensures { (v : List ℕ) → length v ≤ 128 → InStep self v → InStep result (slice_set v option (num value)) }
    {
        let other = self.take_back(option);
        if value {
            return ValueSets {
                taken: other.taken.insert(option),
                left_out: other.left_out,
            };
        }
        ValueSets {
            taken: other.taken,
            left_out: other.left_out.insert(option),
        }
    }

    // The option is open again.
    pub fn take_back(self, option: usize) -> ValueSets
        ensures { (v : List ℕ) → length v ≤ 128 → InStep self v → InStep result (slice_set v option 2) }
    {
        ValueSets {
            taken: self.taken.remove(option),
            left_out: self.left_out.remove(option),
        }
    }
}
