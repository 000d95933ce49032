// The walk of one build from a root: by the low arrow at 0, by the high arrow at 1, until an end.
// The contract also carries the law that says what a rule is in the words of paths.
ghost use Rattle.std.specs.Prelude.{◌≡◌, ◌+◌, ◌<◌, ◌≤◌, length, take};
ghost use Rattle.bank.specs.Numbers.{numbered};
ghost use Rattle.diagrams.specs.Walk.{meets_root};
ghost use Rattle.diagram_theory.specs.Rules.{rule_meets};
ghost use Rattle.diagram_theory.specs.Paths.{PathLaw};
ghost use Rattle.diagram_bank.specs.Walks.{meets_reply};

use bank::refusal::Refusal;
use diagrams::table::Diagrams;
use sweeps::root::root_of;

// Whether the walk from a node of the table ends at 1.
fn ends_at_one(bank: &Diagrams<'_>, root: usize, build: &[bool]) -> bool
    requires { (root < bank.now.used + 2) × (bank.now.width ≤ length build.now) }
    ensures { result ≡ meets_root bank.now.rows.now root build.now }
{
    let mut node = root;
    // a walk along arrows, where nodes 0 and 1 are the ends
    while node >= 2 {
        let row = bank.rows[node - 2];
        node = if build[row.option as usize] {
            row.high as usize
        } else {
            row.low as usize
        };
    }
    node == 1
}

// Whether a build meets a rule. Places from the width on are not read.
pub fn meets(bank: &Diagrams<'_>, rule: usize, build: &[bool]) -> Result<bool, Refusal>
    ensures answer { numbered result ≡ meets_reply bank.now.width (length bank.now.roots.items) rule (length build.now) (rule_meets bank.now.rows.now bank.now.roots.items rule (take bank.now.width build.now)) }
    ensures paths { PathLaw }
{
    let root = root_of(bank, rule)?;
    if build.len() < bank.width {
        return Err(Refusal::ShortPlace);
    }
    Ok(ends_at_one(bank, root, build))
}
