// Exact marks of one rule: a pass from the ends says whether it is live and which nodes are, and the way down from its root what it forces.
ghost use Rattle.std.specs.Prelude.{◌≡◌, ◌<◌, length, Ok};
ghost use Rattle.builds.specs.Answers.{answer_of};
ghost use Rattle.bank.specs.Numbers.{numbered};
ghost use Rattle.bank.specs.Marking.{heard, noted};
ghost use Rattle.diagram_theory.specs.Rules.{rule_meets};

use crate::descent::Descent;
use crate::found::Found;
use crate::live_nodes::live_nodes;
use bank::refusal::{Answer, Refusal};
use diagrams::table::Diagrams;
use sweeps::root::root_of;

// Marks a rule of the table. `values` and `marks` are the options' places, no more and no less.
pub(crate) fn mark_rule(
    bank: &Diagrams<'_>,
    rule: usize,
    values: &[u8],
    marks: &mut [u8],
) -> Result<Answer, Refusal>
    requires sized { (length values.now ≡ bank.now.width) × (length marks.old ≡ bank.now.width) }
    requires known { rule < length bank.now.roots.items }
    ensures value { numbered result ≡ Ok (heard (answer_of bank.now.width (rule_meets bank.now.rows.now bank.now.roots.items rule) values.now)) }
    ensures after { marks.new ≡ noted (answer_of bank.now.width (rule_meets bank.now.rows.now bank.now.roots.items rule) values.now) marks.old }
{
    let root = root_of(bank, rule)?;
    // arrows lead to smaller nodes, so no row after the root's own is met
    let row_count = root.saturating_sub(1);
    let live = live_nodes(bank, row_count, values);
    if !live[root] {
        return Ok(Answer::Dead);
    }
    let descent = Descent {
        bank,
        row_count,
        values,
        live: &live,
    };
    let mut found = Found::nothing();
    descent.from_root(root, &mut found);
    found.write_marks(values, marks);
    Ok(Answer::Live)
}
