// Backtracking: takes back what stands on the decisions above a level.
ghost use Rattle.std.specs.Prelude.{◌≡◌, map};
ghost use Rattle.trail.specs.Rows.{kept_row};

use crate::entry::Entry;
use crate::trail::Trail;

impl Trail {
    // Cuts the decisions above the level, and every value that stands on them. The sets of values follow, option by option.
    pub fn cut(&mut self, level: u8)
        ensures table { self.new.entries ≡ map (kept_row level) self.old.entries }
        ensures depth { self.new.depth ≡ level }
    {
        let mut value_sets = self.value_sets;
        for (option, entry) in self.entries.iter_mut().enumerate() {
            *entry = kept(*entry, level);
            if entry.is_none() {
                value_sets = value_sets.take_back(option);
            }
        }
        self.value_sets = value_sets;
        self.depth = level;
    }
}

// What is left of an option's entry once the decisions above the level are gone.
fn kept(entry: Option<Entry>, level: u8) -> Option<Entry>
    ensures { result ≡ kept_row level entry }
{
    entry.filter(|entry| entry.level() <= level)
}
