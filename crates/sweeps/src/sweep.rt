// The sweep of a rule: the sum, over all builds that meet it, of the product of their weights in option order.
ghost use Rattle.std.specs.Prelude.{◌≡◌, ◌+◌, ◌&&◌, length, nat_lt};
ghost use Rattle.bank.specs.Numbers.{numbered};
ghost use Rattle.diagrams.specs.Roots.{root_at};
ghost use Rattle.diagram_theory.specs.Semirings.{node_sum, sweep_of};
ghost use Rattle.sweeps.specs.Weighing.{weighing};
ghost use Rattle.sweeps.specs.Replies.{room, sweep_reply, column_place};

use crate::column::column;
use crate::root::root_of;
use crate::semiring::Semiring;
use crate::weights::{Weighed, Weights};
use bank::refusal::Refusal;
use diagrams::table::Diagrams;

// The sum of the products over the builds that meet the rule; the places are left as `column` leaves them.
pub fn sweep<S: Semiring + Copy>(
    bank: &Diagrams<'_>,
    rule: usize,
    weights: &Weights<'_, S>,
    places: &mut [S],
) -> Result<S, Refusal>
    ensures answer { numbered result ≡ sweep_reply (nat_lt rule (length bank.now.roots.items)) (room bank.now weights.now (length places.old)) (sweep_of (weighing S.operations weights.now) bank.now.width bank.now.rows.now (root_at bank.now.roots.items rule).node) }
    ensures after { places.new ≡ column_place (nat_lt rule (length bank.now.roots.items) && room bank.now weights.now (length places.old)) (node_sum (weighing S.operations weights.now) bank.now.width bank.now.rows.now) (bank.now.used + 2) places.old }
{
    let root = root_of(bank, rule)?;
    column(bank, weights, places)?;
    Ok(Weighed { bank, weights }.through(places, 0, root))
}
