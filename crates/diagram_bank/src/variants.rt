// How many fitting builds meet a rule, by a sweep over numbers modulo 2^64; up to 62 open options the number is exact.
ghost use Rattle.std.specs.Prelude.{◌≡◌, ◌+◌, ◌&&◌, length, take, OnOk};
ghost use Rattle.builds.specs.Values.{fits};
ghost use Rattle.bank.specs.Numbers.{numbered};
ghost use Rattle.bank.specs.Asked.{cause_of};
ghost use Rattle.diagram_theory.specs.Counts.{opens, count_builds, node_count};
ghost use Rattle.diagram_theory.specs.Rules.{rule_meets};
ghost use Rattle.diagram_bank.specs.Variants.{variants_cause, Countable, variants_reply, variants_place};

use crate::value_weights::value_weights;
use bank::asked::values_up_to;
use bank::refusal::Refusal;
use diagrams::table::Diagrams;
use sweeps::sweep::sweep;
use sweeps::weights::Weights;

// How many options have no value.
#[tactic(auto, using(diagram_theory::proofs::Counting::opens_counted))]
fn open_options(values: &[u8]) -> usize
    ensures { result ≡ opens values.now }
{
    values.iter().filter(|value| **value >= 2).count()
}

// Refuses to count where the rule, the places or the values do not allow it.
#[tactic(auto, unfolding(crate::specs::Variants::variants_cause))]
fn check_countable(
    bank: &Diagrams<'_>,
    rule: usize,
    values: &[u8],
    places: usize,
) -> Result<(), Refusal>
    ensures value { cause_of result ≡ variants_cause bank.now.width (length bank.now.roots.items) bank.now.used rule values.now places }
    ensures ready { OnOk result (Countable bank.now.width (length bank.now.roots.items) bank.now.used rule values.now places) }
{
    // not by `check_asked`: another room is asked for, and one number serves both short places, so the tests come in between
    if rule >= bank.roots.len() {
        return Err(Refusal::NoSuchRule);
    }
    let w = bank.width;
    let nodes = bank.used + 2;
    if values.len() < w || places < nodes {
        return Err(Refusal::ShortPlace);
    }
    if !values_up_to(values, w, 2) {
        return Err(Refusal::BadValue);
    }
    if open_options(&values[..w]) > 62 {
        return Err(Refusal::TooManyOpen);
    }
    Ok(())
}

// How many builds fit the values and meet the rule. The column is left with each node's own count.
pub fn variants(
    bank: &Diagrams<'_>,
    rule: usize,
    values: &[u8],
    column: &mut [u64],
) -> Result<u64, Refusal>
    ensures answer { numbered result ≡ variants_reply (variants_cause bank.now.width (length bank.now.roots.items) bank.now.used rule values.now (length column.old))
        (count_builds bank.now.width (λ β. fits (take bank.now.width values.now) β && rule_meets bank.now.rows.now bank.now.roots.items rule β)) }
    ensures after { column.new ≡ variants_place (variants_cause bank.now.width (length bank.now.roots.items) bank.now.used rule values.now (length column.old))
        (node_count bank.now.width bank.now.rows.now (take bank.now.width values.now)) (bank.now.used + 2) column.old }
{
    check_countable(bank, rule, values, column.len())?;
    let (low, high) = value_weights(&values[..bank.width]);
    let allowed = Weights {
        low: &low,
        high: &high,
    };
    sweep(bank, rule, &allowed, column)
}
