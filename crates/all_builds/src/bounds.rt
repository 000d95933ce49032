// The budgets of a completion and of a question, on fresh sessions that are told the picks: what is sure to suffice, what just suffices,
// what does not, and a completion in pieces, which takes as many steps as in one.
use crate::ledger::{LARGEST_BUDGET, Ledger};
use crate::oracle::Oracle;
use crate::random::Random;
use crate::single::ask;
use crate::tally::Tally;
use crate::told::{judge_of, tell};
use anyhow::{Context, bail, ensure};
use bank::rule_bank::RuleBank;
use replay::call::Call;
use replay::reply::Reply;
use session::completion::{Completion, Verdict};

// A completion on a fresh session, by `complete` with the first of the budgets and by `resume` with the others while they are spent: the
// last answer, with all steps.
fn in_pieces<B: RuleBank>(
    b: &B,
    oracle: &Oracle,
    ledger: &Ledger,
    budgets: &[u64],
    tally: &mut Tally,
) -> anyhow::Result<Completion> {
    let room = oracle.width();
    let mut session = tell(b, &ledger.picks)?;
    let mut judge = judge_of(oracle, &ledger.picks);
    let mut answer = Verdict::Spent;
    for (number, budget) in budgets.iter().enumerate() {
        let budget = *budget;
        let call = if number == 0 {
            Call::Complete { budget, room }
        } else {
            Call::Resume { budget, room }
        };
        match ask(&mut session, &mut judge, call, tally)? {
            Ok(Reply::Completed { completion, .. }) => answer = completion.answer,
            _ => bail!("a piece is refused"),
        }
        if answer != Verdict::Spent {
            break;
        }
    }
    Ok(Completion {
        answer,
        steps: judge.ledger.steps,
    })
}

// Completions in these pieces end alike, with as many steps.
fn try_pieces<B: RuleBank>(
    b: &B,
    oracle: &Oracle,
    ledger: &Ledger,
    budgets: &[u64],
    wanted: Completion,
    tally: &mut Tally,
) -> anyhow::Result<()> {
    let found = in_pieces(b, oracle, ledger, budgets, tally).context(format_args!(
        "budgets {budgets:?}"
    ))?;
    ensure!(
        found == wanted,
        "budgets {budgets:?}: {found:?}, and not {wanted:?}"
    );
    tally.bounds.one_more();
    Ok(())
}

fn try_forced<B: RuleBank>(
    b: &B,
    oracle: &Oracle,
    ledger: &Ledger,
    option: usize,
    tally: &mut Tally,
) -> anyhow::Result<()> {
    let mut session = tell(b, &ledger.picks)?;
    let mut judge = judge_of(oracle, &ledger.picks);
    let call = Call::Forced {
        option,
        budget: ledger.enough_to_force(),
    };
    let _ = ask(&mut session, &mut judge, call, tally)?;
    tally.bounds.one_more();
    Ok(())
}

pub fn try_bounds<B: RuleBank>(
    b: &B,
    oracle: &Oracle,
    ledger: &Ledger,
    random: &mut Random,
    tally: &mut Tally,
) -> anyhow::Result<()> {
    // not the largest budget at first: a search that does not end is to be found by its spent budget
    let enough = ledger.enough();
    let whole = in_pieces(b, oracle, ledger, &[enough], tally)?;
    let steps = whole.steps;
    try_pieces(b, oracle, ledger, &[LARGEST_BUDGET], whole, tally)?;
    try_pieces(b, oracle, ledger, &[steps], whole, tally)?;
    if let Some(less) = steps.checked_sub(1) {
        let spent = Completion {
            answer: Verdict::Spent,
            steps: less,
        };
        try_pieces(b, oracle, ledger, &[less], spent, tally)?;
        try_pieces(b, oracle, ledger, &[less, 0], spent, tally)?;
        try_pieces(b, oracle, ledger, &[less, 0, 1], whole, tally)?;
    }
    let first = u64::from(random.below(3));
    let second = u64::from(random.below(5));
    try_pieces(b, oracle, ledger, &[first, second, 1, enough], whole, tally)?;
    try_forced(b, oracle, ledger, random.place(oracle.width()), tally)
}
