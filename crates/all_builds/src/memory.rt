// Sessions that live long: what they learnt under other picks must not show. Each question goes to the old session, to a fresh one that is
// told only the picks in force, and now and then to the old one once more after `forget`.
use crate::call_words::InWords;
use crate::judge::Judge;
use crate::ledger::Ledger;
use crate::oracle::Oracle;
use crate::random::Random;
use crate::single::{BLANK, ask};
use crate::tally::Tally;
use crate::told::{judge_of, tell};
use crate::values::Values;
use anyhow::{Context, ensure};
use bank::refusal::Refusal;
use bank::rule_bank::RuleBank;
use replay::call::Call;
use replay::reply::Reply;
use session::completion::Completion;
use session::forcing::Forced;
use session::session::Session;

// How many questions a session is asked.
const QUESTIONS: usize = 32;

// The reply without its steps, which may differ.
fn answer_of(reply: Result<Reply, Refusal>) -> Result<Reply, Refusal> {
    match reply? {
        Reply::Completed { completion, place } => Ok(Reply::Completed {
            completion: Completion {
                steps: 0,
                ..completion
            },
            place,
        }),
        Reply::Told(forced) => Ok(Reply::Told(Forced { steps: 0, ..forced })),
        Reply::Done => Ok(Reply::Done),
    }
}

// Picks the option if it is open, else mostly releases it.
fn change_pick<B: RuleBank>(
    session: &mut Session<B>,
    judge: &mut Judge<'_>,
    random: &mut Random,
    tally: &mut Tally,
) -> anyhow::Result<()> {
    let option = random.place(judge.ledger.width);
    let call = if judge.ledger.is_picked(option) {
        Call::Release { option }
    } else {
        Call::Pick {
            option,
            value: random.bit(),
        }
    };
    let _ = ask(session, judge, call, tally)?;
    Ok(())
}

// A question with a budget that is sure to suffice, whatever the session has learnt.
fn draw_question(random: &mut Random, ledger: &Ledger) -> Call {
    if random.chance(50) {
        Call::Complete {
            budget: ledger.enough(),
            room: ledger.width,
        }
    } else {
        Call::Forced {
            option: random.place(ledger.width),
            budget: ledger.enough_to_force(),
        }
    }
}

// The answer of a fresh session that is told the picks.
fn fresh_answer<B: RuleBank>(
    b: &B,
    oracle: &Oracle,
    picks: &Values,
    question: Call,
    tally: &mut Tally,
) -> anyhow::Result<Result<Reply, Refusal>> {
    let mut session = tell(b, picks)?;
    let mut judge = judge_of(oracle, picks);
    let reply = ask(&mut session, &mut judge, question, tally)?;
    Ok(answer_of(reply))
}

// One question under other picks than before.
fn try_question<'b, B: RuleBank>(
    b: &'b B,
    session: &mut Session<&'b B>,
    judge: &mut Judge<'_>,
    random: &mut Random,
    tally: &mut Tally,
) -> anyhow::Result<()> {
    for _ in 0..1 + random.below(3) {
        change_pick(session, judge, random, tally)?;
    }
    let question = draw_question(random, &judge.ledger);
    let picks = judge.ledger.picks;
    let old = answer_of(ask(session, judge, question, tally)?);
    let fresh = fresh_answer(b, judge.oracle, &picks, question, tally).context("a fresh session")?;
    let words = InWords(question);
    ensure!(old == fresh, "{words}: a fresh session answers otherwise");
    tally.remembered.one_more();
    if random.chance(4) {
        let _ = ask(session, judge, Call::Forget, tally)?;
        let forgotten = answer_of(ask(session, judge, question, tally)?);
        ensure!(
            old == forgotten,
            "{words}: the answer after forget is another"
        );
        tally.remembered.one_more();
    }
    Ok(())
}

pub fn try_memory<B: RuleBank>(
    b: &B,
    oracle: &Oracle,
    random: &mut Random,
    tally: &mut Tally,
) -> anyhow::Result<()> {
    let mut session = Session::new(b);
    let mut judge = Judge::new(oracle, BLANK);
    for number in 0..QUESTIONS {
        try_question(b, &mut session, &mut judge, random, tally).context(format_args!(
            "question {number}"
        ))?;
    }
    Ok(())
}
