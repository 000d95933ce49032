// The root of a rule.
ghost use Rattle.std.specs.Prelude.{◌≡◌, ◌+◌, ◌<◌, IfOk};
ghost use Rattle.bank.specs.Numbers.{numbered};
ghost use Rattle.sweeps.specs.Replies.{root_reply};

use bank::refusal::Refusal;
use diagrams::table::Diagrams;

// The node of a rule's root.
pub fn root_of(bank: &Diagrams<'_>, rule: usize) -> Result<usize, Refusal>
    ensures answer { numbered result ≡ root_reply bank.now.roots.items rule }
    ensures inside { IfOk result (λ root. root < bank.now.used + 2) }
{
    let root = bank.roots.get(rule).ok_or(Refusal::NoSuchRule)?;
    Ok(root.node as usize)
}
