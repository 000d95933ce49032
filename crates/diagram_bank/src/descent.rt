// The way down from a root: which nodes the fitting builds that meet it reach, and which values they give each option.
// An arrow counts if the values allow it and its end is live; the options that it jumps over are free.
ghost use Rattle.std.specs.Prelude.{◌≡◌, ℕ, ◌+◌, ◌<◌, ◌≤◌, Bool, true, false, length, if◌then◌else◌, slice_index_or};
ghost use Rattle.builds.specs.Answers.{occurs};
ghost use Rattle.diagrams.specs.Rows.{option_of as option_at};
ghost use Rattle.diagrams.specs.Walk.{meets_root};
ghost use Rattle.diagram_theory.specs.Seen.{Marked, Jumped, passable};
ghost use Rattle.diagram_bank.specs.Found.{all_zeros, all_ones, Nothing};

use crate::allowed::{may_be_0, may_be_1};
use crate::found::Found;
use diagrams::table::Diagrams;
use sweeps::node::option_of;

// What the way down reads: the first rows of the table, the values, and the nodes of these rows that are live.
#[derive(Drop)]
pub(crate) struct Descent<'l, 't, 'a> {
    pub bank: &'t Diagrams<'a>,
    pub row_count: usize,
    pub values: &'l [u8],
    pub live: &'l [bool],
    ghost below: { row_count ≤ bank.now.used },
    ghost sized: { length values.now ≡ bank.now.width },
    ghost lives: { row_count + 2 ≤ length live.now },
    ghost passes: { (n : ℕ) → n < row_count + 2 → slice_index_or live.now n false ≡ passable bank.now.width bank.now.rows.now values.now n },
}

impl<'l, 't, 'a> Descent<'l, 't, 'a> {
    // One arrow from a row of `option` to the node `child`: if it counts, it reaches the child and jumps over the options in between.
    fn follow(&self, counts: bool, option: usize, child: usize, found: &mut Found)
        requires node { child < self.now.row_count + 2 }
        requires jump { option < option_at self.now.bank.now.width self.now.bank.now.rows.now child }
        ensures nodes { Marked counts child found.old.reached found.new.reached }
        ensures seen { found.new.seen ≡ found.old.seen }
        ensures jumps { Jumped counts (option + 1) (option_at self.now.bank.now.width self.now.bank.now.rows.now child) found.old.jumps found.new.jumps }
    {
        found.reached[child] |= counts;
        if counts {
            let to = option_of(self.bank, child);
            found.jump(option + 1, to);
        }
    }

    // Finds the values that each option has, among the fitting builds that meet the live root.
    pub(crate) fn from_root(&self, root: usize, found: &mut Found)
        requires root { root < self.now.row_count + 2 }
        requires alive { passable self.now.bank.now.width self.now.bank.now.rows.now self.now.values.now root ≡ true }
        requires nothing { Nothing found.old }
        ensures { (o : ℕ) (z : Bool) → o < self.now.bank.now.width
            → slice_index_or (if z then all_ones self.now.bank.now.width self.now.values.now found.new else all_zeros self.now.bank.now.width self.now.values.now found.new) o false ≡ occurs self.now.bank.now.width (meets_root self.now.bank.now.rows.now root) self.now.values.now o z }
    {
        found.reached[root] = true;
        found.jump(0, option_of(self.bank, root));
        // by number, no plainer otherwise: a row's node is its number and 2, and `reached` is written and read at nodes meanwhile
        for r in (0..self.row_count).rev() {
            if found.reached[r + 2] {
                let row = self.bank.rows[r];
                let at = row.option as usize;
                let to_low = row.low as usize;
                let to_high = row.high as usize;
                let by_low = may_be_0(self.values[at]) & self.live[to_low];
                let by_high = may_be_1(self.values[at]) & self.live[to_high];
                found.see(at, by_low, by_high);
                self.follow(by_low, at, to_low, found);
                self.follow(by_high, at, to_high, found);
            }
        }
    }
}
