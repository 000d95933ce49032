// Answers an order over any bank: a session is told the picks and completes them, and the listing says what came of it.
ghost use Rattle.std.specs.Prelude.{◌≡◌, ◌^◌, ◌≤◌, length, map};
ghost use Rattle.std.specs.Option.{unwrap_or};
ghost use Rattle.search_theory.specs.Values.{value_number};
ghost use Rattle.search_theory.specs.Held.{PicksOk};
ghost use Rattle.search_theory.specs.Runs.{no_picks};
ghost use Rattle.session.specs.View.{state_of};
ghost use Rattle.quote.specs.Quoting.{Answered};

use bank::rule_bank::RuleBank;
use listing::write::{write_build, write_none, write_spent};
use session::completion::Verdict;
use session::session::Session;

// Tells a session without picks all of these.
fn tell<B: RuleBank>(session: &mut Session<B>, picks: &[Option<bool>; 128])
    requires picks { PicksOk (B.meaning session.old.bank) (map value_number picks.now) }
    requires none { (state_of session.old).picks ≡ no_picks }
    ensures bank { session.new.bank ≡ session.old.bank }
    ensures picks { (state_of session.new).picks ≡ map value_number picks.now }
{
    for (option, pick) in picks.iter().enumerate() {
        if let Some(value) = *pick {
            // within the options and not picked yet
            session.pick(option, value as u8).unwrap();
        }
    }
}

// Completes the picks and writes the lines of the build, or the one line that says why there is none. Says how many bytes that were.
// A call of its own, so that what the search needs and what reading needs do not stand on the stack at once.
#[inline(never)]
pub(crate) fn answer<B: RuleBank + Drop>(
    b: B,
    picks: &[Option<bool>; 128],
    budget: u64,
    listing: &mut [u8],
) -> Option<usize>
    requires picks { PicksOk (B.meaning b) (map value_number picks.now) }
    requires budget { budget ≤ 2 ^ 62 }
    requires room { 1792 ≤ length listing.old }
    ensures { Answered (B.meaning b) (map value_number picks.now) budget listing.old (unwrap_or result 0) listing.new }
{
    let width = b.width();
    let mut session = Session::new(b);
    tell(&mut session, picks);
    let mut place = [2u8; 128];
    // neither the budget nor the place is refused
    let completion = session.complete(budget, &mut place).unwrap();
    match completion.answer {
        Verdict::Build => write_build(listing, &place[0..width]),
        Verdict::NoBuild => write_none(listing),
        Verdict::Spent => write_spent(listing),
    }
}
