// A run: a drawn list of calls, made on a session one by one, with probes in between, and then once more by `replay`.
use crate::call_words::InWords;
use crate::judge::Judge;
use crate::ledger::Ledger;
use crate::oracle::Oracle;
use crate::probe::probe;
use crate::random::Random;
use crate::single::{BLANK, ask};
use crate::tally::Tally;
use anyhow::{Context, ensure};
use bank::refusal::Refusal;
use bank::rule_bank::RuleBank;
use replay::call::Call;
use replay::replay::replay;
use replay::reply::Reply;
use session::session::Session;
use std::alloc::Global;

// How many calls a run has.
const LENGTH: usize = 16;

// The calls of a run with what was replied to each.
#[derive(Drop)]
struct Run {
    calls: Vec<Call>,
    replies: Vec<Result<Reply, Refusal>>,
}

// Whether the replies are the same but for the places, each of which is judged by itself.
fn alike(left: &Result<Reply, Refusal>, right: &Result<Reply, Refusal>) -> bool {
    match (left, right) {
        (
            Ok(Reply::Completed { completion, .. }),
            Ok(
                Reply::Completed {
                    completion: other,
                    ..
                },
            ),
        ) => completion == other,
        _ => left == right,
    }
}

// The next call, judged, and the session probed after it.
fn try_call<B: RuleBank>(
    session: &mut Session<B>,
    judge: &mut Judge<'_>,
    run: &mut Run,
    random: &mut Random,
    tally: &mut Tally,
) -> anyhow::Result<()> {
    let call = judge.ledger.draw_call(random);
    let reply = ask(session, judge, call, tally)?;
    run.calls.push(call)?;
    run.replies.push(reply)?;
    let words = InWords(call);
    probe(session, judge.oracle, &judge.ledger, random, tally).context(format_args!(
        "after {words}"
    ))
}

// The same calls by `replay`, which writes as many replies as there are calls.
fn try_replay<B: RuleBank>(
    alloc: Global,
    b: &B,
    oracle: &Oracle,
    run: &Run,
    tally: &mut Tally,
) -> anyhow::Result<()> {
    let untouched = Ok(Reply::Done);
    let mut replies = vec![in alloc; untouched; LENGTH + 1]?;
    let mut judge = Judge::new(oracle, 0);
    let answer = replay(b, &run.calls, &mut replies);
    ensure!(answer == Ok(()), "the replay answers {answer:?}");
    for (number, (call, (single, reply))) in run
        .calls
        .iter()
        .zip(run.replies.iter().zip(&replies))
        .enumerate()
    {
        judge
            .reply(*call, reply)
            .context(format_args!("call {number} of the replay"))?;
        ensure!(
            alike(single, reply),
            "call {number} of the replay: another reply"
        );
        tally.replayed.one_more();
    }
    ensure!(
        replies.last() == Some(&untouched),
        "the replay writes too many replies"
    );
    Ok(())
}

// A place for fewer replies than there are calls is refused, and stays.
fn try_short_replay<B: RuleBank>(
    alloc: Global,
    b: &B,
    run: &Run,
    tally: &mut Tally,
) -> anyhow::Result<()> {
    let untouched = Err(Refusal::TooManyOpen);
    let mut replies = vec![in alloc; untouched; LENGTH - 1]?;
    let answer = replay(b, &run.calls, &mut replies).map_err(Refusal::number);
    ensure!(
        answer == Err(8) && replies.iter().all(|reply| *reply == untouched),
        "a replay with too little room answers {answer:?}"
    );
    tally.refused(8);
    Ok(())
}

// The picks that are in force at the end.
pub fn try_run<B: RuleBank>(
    alloc: Global,
    b: &B,
    oracle: &Oracle,
    random: &mut Random,
    tally: &mut Tally,
) -> anyhow::Result<Ledger> {
    let mut session = Session::new(b);
    let mut judge = Judge::new(oracle, BLANK);
    let mut run = Run {
        calls: Vec::new(alloc),
        replies: Vec::new(alloc),
    };
    for number in 0..LENGTH {
        try_call(&mut session, &mut judge, &mut run, random, tally).context(format_args!(
            "call {number}"
        ))?;
    }
    try_replay(alloc, b, oracle, &run, tally)?;
    try_short_replay(alloc, b, &run, tally)?;
    Ok(judge.ledger)
}
