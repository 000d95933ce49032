// Performs a list of calls on a new session over a bank, and notes the replies.
ghost use Rattle.std.specs.Prelude.{◌≡◌, length, drop, if◌then◌else◌, MatchResult, nat_le};
ghost use Rattle.search_theory.specs.Calls.{Does};
ghost use Rattle.search_theory.specs.Law.{AnswersRight, Finishes, SameAnswers};
ghost use Rattle.session.specs.View.{state_of};
ghost use Rattle.bank.specs.Asked.{cause_of};
ghost use Rattle.replay.specs.Replies.{call_of, reply_of, PlacedIn, SuitedIn};
ghost use Rattle.replay.specs.Replayed.{Replayed};

use crate::call::Call;
use crate::reply::Reply;
use bank::refusal::Refusal;
use bank::rule_bank::RuleBank;
use session::session::Session;

// Performs one call, or says why it is refused. No bank has more than 128 options, so a place of 128 is as good for a completion as one with more room.
fn perform<B: RuleBank>(session: &mut Session<B>, call: Call) -> Result<Reply, Refusal>
    ensures does { Does (B.meaning session.old.bank) (state_of session.old) (call_of call) (reply_of (B.meaning session.old.bank).width result) (state_of session.new) }
    ensures places { PlacedIn (B.meaning session.old.bank).width result }
    ensures kind { SuitedIn call result }
    ensures bank { session.new.bank ≡ session.old.bank }
{
    let mut place = [0; 128];
    // a match: the calls are a list that the caller hands in, and a run is a list of such calls
    match call {
        Call::Pick { option, value } => {
            session.pick(option, value)?;
            Ok(Reply::Done)
        }
        Call::Release { option } => {
            session.release(option)?;
            Ok(Reply::Done)
        }
        Call::Complete { budget, room } => {
            let completion = session.complete(budget, &mut place[..room.min(128)])?;
            Ok(Reply::Completed { completion, place })
        }
        Call::Resume { budget, room } => {
            let completion = session.resume(budget, &mut place[..room.min(128)])?;
            Ok(Reply::Completed { completion, place })
        }
        Call::Forced { option, budget } => Ok(Reply::Told(session.forced(option, budget)?)),
        Call::Forget => {
            session.forget();
            Ok(Reply::Done)
        }
    }
}

// Performs the calls one after the other on a new session over the bank, and notes each reply at its call's place.
// The law is that of every run over the bank, so it holds of this one.
pub fn replay<B: RuleBank + Drop>(
    bank: B,
    calls: &[Call],
    replies: &mut [Result<Reply, Refusal>],
) -> Result<(), Refusal>
    ensures refusal { cause_of result ≡ (if nat_le (length calls.now) (length replies.old) then None else Some 8) }
    ensures run { MatchResult result (λ _. Replayed (B.meaning bank) calls.now replies.new) (λ _. replies.new ≡ replies.old) }
    ensures rest { drop (length calls.now) replies.new ≡ drop (length calls.now) replies.old }
    ensures law { AnswersRight (B.meaning bank) × Finishes (B.meaning bank) × SameAnswers (B.meaning bank) }
{
    if replies.len() < calls.len() {
        return Err(Refusal::ShortPlace);
    }
    let mut session = Session::new(bank);
    // by index: of a loop over `replies.iter_mut().zip(calls)` a proof does not know what it wrote into the slice
    for (i, call) in calls.iter().enumerate() {
        replies[i] = perform(&mut session, *call);
    }
    Ok(())
}
