// Sessions over small clause banks, run: answers, refusals in their order, what closes an open search, and a replay.
#![tactic(auto)]

#[cfg(test)]
mod tests {
    use bank::refusal::Refusal;
    use clauses::table::Clauses;
    use replay::call::Call;
    use replay::replay::replay;
    use replay::reply::Reply;
    use session::completion::{Completion, Verdict};
    use session::forcing::{Force, Forced};
    use session::session::Session;

    // The largest budget, as a number of the tests' own, so that it does not go with what it tests.
    const LIMIT: u64 = 1 << 62;

    // What stands in a list of replies before a replay.
    const BLANK: Result<Reply, Refusal> = Ok(Reply::Told(Forced {
        answer: Force::Open,
        steps: 9,
    }));

    // A session over these clauses; the tables below are all in order.
    fn over(width: usize, clauses: &[&[u32]]) -> Session<Clauses> {
        let mut bank = Clauses::empty();
        let _ = bank.open(width, clauses);
        Session::new(bank)
    }

    // Whether a completion ended so, within so many steps.
    fn ended(res: Result<Completion, Refusal>, verdict: Verdict, most: u64) -> bool {
        res.is_ok_and(|completion| completion.answer == verdict && completion.steps <= most)
    }

    // Whether an option was found to be so.
    fn found(res: Result<Forced, Refusal>, answer: Force) -> bool {
        res.is_ok_and(|forced| forced.answer == answer)
    }

    // Whether a search is open: only then is a place that is too short the first fault of a resume.
    fn is_open(session: &mut Session<Clauses>) -> bool {
        session.resume(0, &mut []) == Err(Refusal::ShortPlace)
    }

    // Opens a search that needs another step.
    fn begin(session: &mut Session<Clauses>) -> bool {
        ended(session.complete(0, &mut [7; 4]), Verdict::Spent, 0) && is_open(session)
    }

    // Whether the reply is a build with these values of the first options.
    fn builds(reply: Result<Reply, Refusal>, values: &[u8]) -> bool {
        match reply {
            Ok(Reply::Completed { completion, place }) => {
                completion.answer == Verdict::Build && place.starts_with(values)
            }
            _ => false,
        }
    }

    #[test]
    fn steps_and_budgets(rt: HostRuntime) {
        let mut session = over(1, &[&[1], &[0]]);
        let mut place = [7u8; 2];
        assert!(rt; ended(session.complete(3, &mut place), Verdict::NoBuild, 3));
        assert!(rt; ended(session.complete(0, &mut place), Verdict::Spent, 0));
        assert!(rt; ended(session.resume(3, &mut place), Verdict::NoBuild, 3));
        assert!(rt; session.resume(3, &mut place) == Err(Refusal::NoOpenSearch));
        assert!(rt; ended(session.complete(LIMIT, &mut place), Verdict::NoBuild, 3));
        assert!(rt; session.complete(LIMIT + 1, &mut place) == Err(Refusal::BudgetTooLarge));
        assert!(rt; place == [7, 7]);
    }

    // Options 0 and 1 exclude each other, one of 1 and 2 is needed: the first build is 0 0 1.
    #[test]
    fn answers(rt: HostRuntime) {
        let mut session = over(3, &[&[0, 2], &[3, 5]]);
        let mut place = [7u8; 4];
        assert!(rt; ended(session.complete(100, &mut place), Verdict::Build, 15));
        assert!(rt; place == [0, 0, 1, 7]);
        assert!(rt; found(session.forced(2, 100), Force::Open));
        assert!(rt; found(session.forced(2, 0), Force::Spent));
        assert!(rt; session.pick(0, 1).is_ok());
        assert!(rt; found(session.forced(0, 100), Force::Only(true)));
        assert!(rt; found(session.forced(1, 100), Force::Only(false)));
        assert!(rt; found(session.forced(2, 100), Force::Only(true)));
        assert!(rt; ended(session.complete(100, &mut place), Verdict::Build, 15));
        assert!(rt; place == [1, 0, 1, 7]);
        assert!(rt; session.pick(2, 0).is_ok());
        assert!(rt; found(session.forced(1, 100), Force::NoBuild));
        assert!(rt; ended(session.complete(100, &mut place), Verdict::NoBuild, 15));
        assert!(rt; session.release(2).is_ok() && session.release(0).is_ok());
        session.forget();
        assert!(rt; ended(session.complete(100, &mut place), Verdict::Build, 15));
        assert!(rt; place == [0, 0, 1, 7]);
    }

    #[test]
    fn checks(rt: HostRuntime) {
        let mut session = over(3, &[&[0, 2], &[3, 5]]);
        let mut build = [9u8; 128];
        assert!(rt; session.check(build) == Err(Refusal::BadValue));
        build[0] = 0;
        build[1] = 0;
        build[2] = 2;
        assert!(rt; session.check(build) == Err(Refusal::BadValue));
        build[2] = 1;
        assert!(rt; session.check(build) == Ok(true));
        build[2] = 0;
        assert!(rt; session.check(build) == Ok(false));
        build[2] = 1;
        assert!(rt; session.pick(0, 1).is_ok());
        assert!(rt; session.check(build) == Ok(false));
        build[0] = 1;
        assert!(rt; session.check(build) == Ok(true));
    }

    #[test]
    fn refusals_in_order(rt: HostRuntime) {
        let mut session = over(2, &[&[1, 3]]);
        assert!(rt; session.pick(1, 0).is_ok());
        assert!(rt; begin(&mut session));
        assert!(rt; session.pick(2, 2) == Err(Refusal::OptionOutside));
        assert!(rt; session.pick(1, 2) == Err(Refusal::PickValue));
        assert!(rt; session.pick(1, 1) == Err(Refusal::AlreadyPicked));
        assert!(rt; session.release(2) == Err(Refusal::OptionOutside));
        assert!(rt; session.release(0) == Err(Refusal::NotPicked));
        assert!(rt; session.complete(LIMIT + 1, &mut [7]) == Err(Refusal::BudgetTooLarge));
        assert!(rt; session.complete(LIMIT, &mut [7]) == Err(Refusal::ShortPlace));
        assert!(rt; session.resume(LIMIT + 1, &mut [7]) == Err(Refusal::BudgetTooLarge));
        assert!(rt; session.resume(LIMIT, &mut [7]) == Err(Refusal::ShortPlace));
        assert!(rt; session.forced(2, LIMIT + 1) == Err(Refusal::OptionOutside));
        assert!(rt; session.forced(1, LIMIT + 1) == Err(Refusal::BudgetTooLarge));
        assert!(rt; session.check([2; 128]) == Err(Refusal::BadValue));
        assert!(rt; is_open(&mut session));
        let mut place = [7u8; 2];
        assert!(rt; ended(session.resume(LIMIT, &mut place), Verdict::Build, 7));
        assert!(rt; place == [1, 0]);
        assert!(rt; session.resume(LIMIT + 1, &mut [7]) == Err(Refusal::BudgetTooLarge));
        assert!(rt; session.resume(LIMIT, &mut [7]) == Err(Refusal::NoOpenSearch));
    }

    #[test]
    fn closings(rt: HostRuntime) {
        let mut session = over(2, &[&[1, 3]]);
        assert!(rt; !is_open(&mut session));
        assert!(rt; begin(&mut session));
        assert!(rt; session.check([1; 128]) == Ok(true));
        assert!(rt; is_open(&mut session));
        assert!(rt; session.pick(0, 0).is_ok() && !is_open(&mut session));
        assert!(rt; begin(&mut session));
        assert!(rt; session.release(0).is_ok() && !is_open(&mut session));
        assert!(rt; begin(&mut session));
        session.forget();
        assert!(rt; !is_open(&mut session));
        assert!(rt; begin(&mut session));
        assert!(rt; found(session.forced(0, 0), Force::Spent) && !is_open(&mut session));
        assert!(rt; begin(&mut session));
        assert!(rt; found(session.forced(0, 100), Force::Open) && !is_open(&mut session));
        assert!(rt; begin(&mut session));
        assert!(rt;
            ended(session.complete(100, &mut [7; 2]), Verdict::Build, 7) && !is_open(&mut session)
        );
    }

    #[test]
    fn replayed(rt: HostRuntime) {
        let mut bank = Clauses::empty();
        assert!(rt; bank.open(2, &[&[1, 3]]).is_ok());
        let calls = [
            Call::Pick {
                option: 0,
                value: 0,
            },
            Call::Complete {
                budget: 0,
                room: 500,
            },
            Call::Resume {
                budget: 100,
                room: 1,
            },
            Call::Resume {
                budget: 100,
                room: 2,
            },
            Call::Forced {
                option: 1,
                budget: 100,
            },
            Call::Release { option: 1 },
            Call::Forget,
        ];
        let mut replies = [BLANK; 8];
        assert!(rt; replay(bank, &calls, &mut replies).is_ok());
        assert!(rt; replies[0] == Ok(Reply::Done));
        assert!(rt;
            matches!(
                replies[1],
                Ok(Reply::Completed {
                    completion: Completion {
                        answer: Verdict::Spent,
                        steps: 0
                    },
                    ..
                })
            )
        );
        assert!(rt; replies[2] == Err(Refusal::ShortPlace));
        assert!(rt; builds(replies[3], &[0, 1]));
        assert!(rt;
            matches!(
                replies[4],
                Ok(Reply::Told(Forced {
                    answer: Force::Only(true),
                    ..
                }))
            )
        );
        assert!(rt; replies[5] == Err(Refusal::NotPicked));
        assert!(rt; replies[6] == Ok(Reply::Done));
        assert!(rt; replies[7] == BLANK);
        let mut short = [BLANK; 6];
        assert!(rt; replay(Clauses::empty(), &calls, &mut short) == Err(Refusal::ShortPlace));
        assert!(rt; short[0] == BLANK);
    }
}
