// The refusals of `mark`, tested once for every kind of bank.
ghost use Rattle.std.specs.Prelude.{◌≡◌, ℕ, ◌&&◌, length, take, OnOk, nat_le};
ghost use Rattle.builds.specs.Values.{up_to};
ghost use Rattle.bank.specs.Marking.{mark_cause, Ready};
ghost use Rattle.bank.specs.Asked.{cause_of};

use crate::refusal::Refusal;

// As many values are tested at a time: a bank has no more options, so that its tables are one block.
const BLOCK: usize = 128;

// The greatest of the values, or 0 if there are none.
fn greatest(values: &[u8]) -> u8
    ensures { (most : ℕ) → nat_le result most ≡ up_to most values.now }
{
    // no early way out: so the compiler takes sixteen values at a time
    values
        .iter()
        .fold(0u8, |greatest, value| greatest.max(*value))
}

// Whether there are `w` values and the first `w` of them are at most `most`. A block with a greater one ends the search.
pub fn values_up_to(values: &[u8], w: usize, most: u8) -> bool
    ensures { result ≡ (nat_le w (length values.now) && up_to most (take w values.now)) }
{
    if w > values.len() {
        return false;
    }
    let known = &values[..w];
    // a bank's tables: cutting one block off would cost as much as testing it
    if w <= BLOCK {
        return greatest(known) <= most;
    }
    known.chunks(BLOCK).all(|block| greatest(block) <= most)
}

// Why a bank of `width` options and `count` rules refuses to mark, if it does.
#[tactic(auto, unfolding(crate::specs::Marking::mark_cause))]
pub fn check_asked(
    width: usize,
    count: usize,
    rule: usize,
    values: &[u8],
    room: usize,
) -> Result<(), Refusal>
    ensures value { cause_of result ≡ mark_cause width count rule values.now room }
    ensures ready { OnOk result (Ready width count rule values.now room) }
{
    if rule >= count {
        return Err(Refusal::NoSuchRule);
    }
    if values.len() < width || room < width {
        return Err(Refusal::ShortPlace);
    }
    if !values_up_to(values, width, 2) {
        return Err(Refusal::BadValue);
    }
    Ok(())
}
