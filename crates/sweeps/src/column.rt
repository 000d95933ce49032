// The column of node results: place n is node n's sum over the options from its own on.
ghost use Rattle.std.specs.Prelude.{◌≡◌, ◌+◌, ◌≤◌, length};
ghost use Rattle.bank.specs.Numbers.{numbered};
ghost use Rattle.diagram_theory.specs.Semirings.{node_sum};
ghost use Rattle.sweeps.specs.Weighing.{weighing};
ghost use Rattle.sweeps.specs.Replies.{room, column_reply, filled, column_place};

use crate::semiring::Semiring;
use crate::weights::{Weighed, Weights};
use bank::refusal::Refusal;
use diagrams::table::Diagrams;

// Whether the weights reach to the width, and the places to the last node.
fn roomy<S>(bank: &Diagrams<'_>, weights: &Weights<'_, S>, places: usize) -> bool
    ensures { result ≡ room bank.now weights.now places }
{
    bank.width <= weights.low.len() && bank.width <= weights.high.len() && bank.used + 2 <= places
}

impl<'t, 'a, S: Semiring + Copy> Weighed<'t, 'a, S> {
    // Fills the column from the ends up: both arrows of a row lead to nodes that are done.
    fn fill(&self, places: &mut [S])
        requires { self.now.bank.now.used + 2 ≤ length places.old }
        ensures { places.new ≡ filled (node_sum (weighing S.operations self.now.weights.now) self.now.bank.now.width self.now.bank.now.rows.now) (self.now.bank.now.used + 2) places.old }
    {
        places[0] = S::zero();
        places[1] = S::one();
        // by number: each place is written from places before it in the same column
        for r in 0..self.bank.used {
            let result = self.node_result(places, r);
            places[r + 2] = result;
        }
    }
}

// The column of a table for these weights. Places from rows + 2 on stay.
pub fn column<S: Semiring + Copy>(
    bank: &Diagrams<'_>,
    weights: &Weights<'_, S>,
    places: &mut [S],
) -> Result<(), Refusal>
    ensures answer { numbered result ≡ column_reply (room bank.now weights.now (length places.old)) }
    ensures after { places.new ≡ column_place (room bank.now weights.now (length places.old)) (node_sum (weighing S.operations weights.now) bank.now.width bank.now.rows.now) (bank.now.used + 2) places.old }
{
    if !roomy(bank, weights, places.len()) {
        return Err(Refusal::ShortPlace);
    }
    Weighed { bank, weights }.fill(places);
    Ok(())
}
