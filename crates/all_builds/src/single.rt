// Makes one call on a session, by the session's own methods, and judges and counts the reply.
use crate::call_words::InWords;
use crate::judge::Judge;
use crate::tally::Tally;
use anyhow::{Context, ensure};
use bank::refusal::Refusal;
use bank::rule_bank::RuleBank;
use replay::call::Call;
use replay::reply::Reply;
use session::session::Session;

// What a place for a build holds before a single call. `replay` hands out places of zeros, so that the two tell what is written.
pub const BLANK: u8 = 7;

fn perform<B: RuleBank>(
    session: &mut Session<B>,
    call: Call,
    place: &mut [u8; 128],
) -> Result<Reply, Refusal> {
    match call {
        Call::Pick { option, value } => {
            session.pick(option, value)?;
            Ok(Reply::Done)
        }
        Call::Release { option } => {
            session.release(option)?;
            Ok(Reply::Done)
        }
        Call::Complete { budget, room } => {
            let completion = session.complete(budget, &mut place[..room.min(128)])?;
            Ok(Reply::Completed {
                completion,
                place: *place,
            })
        }
        Call::Resume { budget, room } => {
            let completion = session.resume(budget, &mut place[..room.min(128)])?;
            Ok(Reply::Completed {
                completion,
                place: *place,
            })
        }
        Call::Forced { option, budget } => Ok(Reply::Told(session.forced(option, budget)?)),
        Call::Forget => {
            session.forget();
            Ok(Reply::Done)
        }
    }
}

pub fn ask<B: RuleBank>(
    session: &mut Session<B>,
    judge: &mut Judge<'_>,
    call: Call,
    tally: &mut Tally,
) -> anyhow::Result<Result<Reply, Refusal>> {
    let mut place = [BLANK; 128];
    let reply = perform(session, call, &mut place);
    let words = InWords(call);
    ensure!(
        reply.is_ok() || place.iter().all(|value| *value == BLANK),
        "{words}: refused, and the place is written to"
    );
    judge.reply(call, &reply).context(format_args!("{words}"))?;
    tally.replied(&reply);
    Ok(reply)
}
