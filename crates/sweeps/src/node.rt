// One node's result, from those of the nodes below it.
// `weighing S.operations weights.now` stands in each clause here, in column and in sweep: each speaks of other weights, and the words are two.
// The width and the rows of a table stand apart in them, since the theory of sums speaks of rows in any memory.
ghost use Rattle.std.specs.Prelude.{◌≡◌, ℕ, ◌+◌, ◌-◌, ◌<◌, ◌≤◌, length, reverse, fold, slice_range, slice_index_or};
ghost use Rattle.std.specs.List.{zip};
ghost use Rattle.diagrams.specs.Rows.{option_of as option_at};
ghost use Rattle.diagram_theory.specs.Semirings.{sum_from, node_sum};
ghost use Rattle.sweeps.specs.Weighing.{weighing};

use crate::semiring::Semiring;
use crate::weights::{Weighed, Weights};
use diagrams::row::option_of as option_over;
use diagrams::table::Diagrams;

// The option of a node, the width for an end, and 0 where the lent memory has no such row.
pub fn option_of(bank: &Diagrams<'_>, node: usize) -> usize
    ensures { result ≡ option_at bank.now.width bank.now.rows.now node }
{
    option_over(bank.width, bank.rows, node)
}

impl<'a, S: Semiring + Copy> Weights<'a, S> {
    // A result with the weights of the free options `from` to `to - 1` in front.
    fn jumped(&self, from: usize, to: usize, start: S) -> S
        requires { (to ≤ length self.now.low.now) × ((to ≤ length self.now.high.now) × (from ≤ to)) }
        ensures { result ≡ fold (λ value p. S.operations.times (S.operations.plus p.0 p.1) value) start (zip (reverse (slice_range self.now.low.now from to)) (reverse (slice_range self.now.high.now from to))) }
    {
        // an arrow that jumps over nothing cuts no slice
        if from == to {
            return start;
        }
        let lows = self.low[from..to].iter().rev();
        let highs = self.high[from..to].iter().rev();
        lows.zip(highs)
            .fold(start, |value, (low, high)| low.add(*high).mul(value))
    }
}

impl<'t, 'a, S: Semiring + Copy> Weighed<'t, 'a, S> {
    // What the options from `from` on come to on the way through a node: those before its own are free.
    pub(crate) fn through(&self, column: &[S], from: usize, node: usize) -> S
        requires inside { (node < self.now.bank.now.used + 2) × (node < length column.now) }
        requires before { from ≤ option_at self.now.bank.now.width self.now.bank.now.rows.now node }
        requires known { (d : S) → slice_index_or column.now node d ≡ node_sum (weighing S.operations self.now.weights.now) self.now.bank.now.width self.now.bank.now.rows.now node }
        ensures { result ≡ sum_from (weighing S.operations self.now.weights.now) self.now.bank.now.width self.now.bank.now.rows.now from node }
    {
        let to = option_of(self.bank, node);
        self.weights.jumped(from, to, column[node])
    }

    // The result of the node of row `r`: each arrow's weight, and what comes through the node that it leads to.
    pub(crate) fn node_result(&self, column: &[S], r: usize) -> S
        requires row { r < self.now.bank.now.used }
        requires long { self.now.bank.now.used + 2 ≤ length column.now }
        requires below { (n : ℕ) (d : S) → n < r + 2 → slice_index_or column.now n d ≡ node_sum (weighing S.operations self.now.weights.now) self.now.bank.now.width self.now.bank.now.rows.now n }
        ensures { result ≡ node_sum (weighing S.operations self.now.weights.now) self.now.bank.now.width self.now.bank.now.rows.now (r + 2) }
    {
        let row = self.bank.rows[r];
        let option = row.option as usize;
        let by_low = self.through(column, option + 1, row.low as usize);
        let by_high = self.through(column, option + 1, row.high as usize);
        self.weights.low[option]
            .mul(by_low)
            .add(self.weights.high[option].mul(by_high))
    }
}
