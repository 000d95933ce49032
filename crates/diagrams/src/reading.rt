// Which options a root reads. Arrows lead to smaller nodes, so the sets of all nodes are worked out once, from below.
ghost use Rattle.std.specs.Prelude.{◌≡◌, ℕ, ◌+◌, ◌<◌, ◌≤◌, ◌||◌, ◌==◌};
ghost use Rattle.option_set.specs.Sets.{member};
ghost use Rattle.diagrams.specs.Reach.{reaches};
ghost use Rattle.diagrams.specs.Reading.{node_set};

use crate::table::Diagrams;
use option_set::OptionSet;

// What a node reads: its own option, and what its children read.
#[tactic(auto, using(crate::proofs::Sets::put_into_union))]
fn node_reads(option: u32, low: OptionSet, high: OptionSet) -> OptionSet
    requires { option < 128 }
    ensures { (o : ℕ) → member result.members o ≡ (option == o || (member low.members o || member high.members o)) }
{
    low.union(high).insert(option as usize)
}

// The set of each node up to the last of so many rows. One pass serves all of them.
// An array by value, since nothing here allocates; a place to fill would be one parameter more.
pub(crate) fn reading_sets(table: &Diagrams<'_>, row_count: usize) -> [OptionSet; 2050]
    requires { row_count ≤ table.now.used }
    ensures { (n o : ℕ) → n < row_count + 2 → member (node_set result n) o ≡ reaches table.now.rows.now n o }
{
    let mut sets = [OptionSet::empty(); 2050];
    for (r, row) in table.rows[..row_count].iter().enumerate() {
        sets[r + 2] = node_reads(row.option, sets[row.low as usize], sets[row.high as usize]);
    }
    sets
}

// What one node reads: only the rows up to it are looked at.
pub(crate) fn reads_of(table: &Diagrams<'_>, node: usize) -> OptionSet
    requires { node < table.now.used + 2 }
    ensures { (o : ℕ) → member result.members o ≡ reaches table.now.rows.now node o }
{
    let sets = reading_sets(table, node.saturating_sub(1));
    sets[node]
}
