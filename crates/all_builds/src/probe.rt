// Asks a session where it stands by calls that change nothing: checks of whole builds, and calls that have to be refused.
// So it shows whether a call, refused or not, left more behind than it should.
use crate::ledger::Ledger;
use crate::oracle::Oracle;
use crate::random::Random;
use crate::tally::Tally;
use crate::values::{Build, agrees, digits};
use anyhow::ensure;
use bank::refusal::Refusal;
use bank::rule_bank::RuleBank;
use session::session::Session;

fn number_of<T>(reply: &Result<T, Refusal>) -> Option<u8> {
    match reply {
        Ok(_) => None,
        Err(refusal) => Some(refusal.number()),
    }
}

// Only a place that is too short keeps an open search from going on; without one there is none to go on with.
fn probe_search<B: RuleBank>(
    session: &mut Session<B>,
    ledger: &Ledger,
    tally: &mut Tally,
) -> anyhow::Result<()> {
    let wanted = if ledger.open { 8 } else { 6 };
    let found = number_of(&session.resume(0, &mut []));
    ensure!(
        found == Some(wanted),
        "then an empty resume is refused as {found:?}, and not {wanted}"
    );
    tally.refused(wanted);
    Ok(())
}

// A picked option cannot be picked again, and one without a pick cannot be released.
fn probe_picks<B: RuleBank>(
    session: &mut Session<B>,
    ledger: &Ledger,
    tally: &mut Tally,
) -> anyhow::Result<()> {
    for option in 0..ledger.width {
        let (found, wanted) = if ledger.is_picked(option) {
            (number_of(&session.pick(option, 0)), 3)
        } else {
            (number_of(&session.release(option)), 4)
        };
        ensure!(
            found == Some(wanted),
            "then option {option} answers {found:?}, and not {wanted}"
        );
        tally.refused(wanted);
    }
    Ok(())
}

// The build in a place of full size, with numbers beyond that are no values.
fn placed(build: &Build, width: usize) -> [u8; 128] {
    let mut place = [9; 128];
    for (value, bit) in place.iter_mut().zip(build).take(width) {
        *value = *bit as u8;
    }
    place
}

// One of the builds is checked, and a table that is none is refused.
fn probe_check<B: RuleBank>(
    session: &Session<B>,
    oracle: &Oracle,
    ledger: &Ledger,
    random: &mut Random,
    tally: &mut Tally,
) -> anyhow::Result<()> {
    let at = random.place(oracle.builds().len());
    let Some(build) = oracle.builds().get(at) else {
        return Ok(());
    };
    let wanted = oracle.is_good(at) && agrees(&ledger.picks, build);
    let mut place = placed(build, ledger.width);
    let found = session.check(place);
    let shown = digits(build);
    ensure!(
        found == Ok(wanted),
        "then check of {shown:?} gives {found:?}"
    );
    tally.checked(wanted);
    let at = random.place(ledger.width);
    if let Some(value) = place.get_mut(at) {
        *value = 2;
    }
    let found = number_of(&session.check(place));
    ensure!(found == Some(9), "then check of a 2 gives {found:?}");
    tally.refused(9);
    Ok(())
}

pub fn probe<B: RuleBank>(
    session: &mut Session<B>,
    oracle: &Oracle,
    ledger: &Ledger,
    random: &mut Random,
    tally: &mut Tally,
) -> anyhow::Result<()> {
    probe_search(session, ledger, tally)?;
    probe_picks(session, ledger, tally)?;
    for _ in 0..2 {
        probe_check(session, oracle, ledger, random, tally)?;
    }
    if let Some(first) = oracle.first(&ledger.picks) {
        let found = session.check(placed(&first, ledger.width));
        ensure!(
            found == Ok(true),
            "then check of the first build gives {found:?}"
        );
        tally.checked(true);
    }
    Ok(())
}
