// Which nodes are live under a values table: a build that fits it goes from there to the 1 end. One pass over the rows, from below.
// Not by `sweeps::column`: every value lets its option be 0 or 1, so what an arrow jumps over stops no build, and is not looked at.
ghost use Rattle.std.specs.Prelude.{◌≡◌, ℕ, ◌+◌, ◌<◌, ◌≤◌, false, length, slice_index_or};
ghost use Rattle.diagram_theory.specs.Seen.{passable};

use crate::allowed::{may_be_0, may_be_1};
use diagrams::table::Diagrams;

// Both ends, and the nodes of the first `row_count` rows.
pub(crate) fn live_nodes(bank: &Diagrams<'_>, row_count: usize, values: &[u8]) -> [bool; 2050]
    requires below { row_count ≤ bank.now.used }
    requires sized { length values.now ≡ bank.now.width }
    ensures { (n : ℕ) → n < row_count + 2 → slice_index_or result n false ≡ passable bank.now.width bank.now.rows.now values.now n }
{
    let mut live = [false; 2050];
    live[1] = true;
    for (r, row) in bank.rows[..row_count].iter().enumerate() {
        let value = values[row.option as usize];
        let by_low = may_be_0(value) & live[row.low as usize];
        let by_high = may_be_1(value) & live[row.high as usize];
        live[r + 2] = by_low | by_high;
    }
    live
}
