// What was tried so far.
use crate::count::Count;
use bank::refusal::Refusal;
use replay::reply::Reply;
use session::completion::Verdict;
use session::forcing::Force;
use std::fmt;

#[derive(Clone, Copy, Default, Drop)]
pub struct Tally {
    // marks of a live rule, and dead rules
    pub live: Count,
    pub dead: Count,
    pub reads: Count,
    pub variants: Count,
    pub walks: Count,
    // calls of sessions, by what they replied
    done: Count,
    builds: Count,
    no_builds: Count,
    spent: Count,
    zeros: Count,
    ones: Count,
    open: Count,
    unforced: Count,
    force_spent: Count,
    good: Count,
    faulty: Count,
    refused: [Count; 11],
    pub replayed: Count,
    pub bounds: Count,
    pub remembered: Count,
    pub differences: Count,
}

impl Tally {
    pub fn refused(&mut self, number: u8) {
        if let Some(count) = self.refused.get_mut(number as usize) {
            count.one_more();
        }
    }

    pub fn checked(&mut self, good: bool) {
        let count = if good {
            &mut self.good
        } else {
            &mut self.faulty
        };
        count.one_more();
    }

    fn completed(&mut self, verdict: Verdict) {
        match verdict {
            Verdict::Build => self.builds.one_more(),
            Verdict::NoBuild => self.no_builds.one_more(),
            Verdict::Spent => self.spent.one_more(),
        }
    }

    fn forced(&mut self, force: Force) {
        match force {
            Force::Only(false) => self.zeros.one_more(),
            Force::Only(true) => self.ones.one_more(),
            Force::Open => self.open.one_more(),
            Force::NoBuild => self.unforced.one_more(),
            Force::Spent => self.force_spent.one_more(),
        }
    }

    pub fn replied(&mut self, reply: &Result<Reply, Refusal>) {
        match reply {
            Ok(Reply::Done) => self.done.one_more(),
            Ok(Reply::Completed { completion, .. }) => self.completed(completion.answer),
            Ok(Reply::Told(forced)) => self.forced(forced.answer),
            Err(refusal) => self.refused(refusal.number()),
        }
    }
}

impl fmt::Display for Tally {
    fn fmt<W: fmt::Write>(&self, f: &mut fmt::Formatter<W>) -> fmt::Result {
        let t = self;
        writeln!(f, "marks: {} live, {} dead", t.live, t.dead)?;
        writeln!(f, "options that a rule reads: {}", t.reads)?;
        writeln!(f, "variants: {}, builds walked: {}", t.variants, t.walks)?;
        writeln!(f, "picks, releases and forgets: {}", t.done)?;
        writeln!(
            f,
            "completions: {} build, {} none, {} spent",
            t.builds, t.no_builds, t.spent
        )?;
        writeln!(
            f,
            "forced: {} to 0, {} to 1, {} open, {} none, {} spent",
            t.zeros, t.ones, t.open, t.unforced, t.force_spent
        )?;
        writeln!(f, "checks: {} good, {} not", t.good, t.faulty)?;
        write!(f, "refused:")?;
        for (number, count) in t.refused.iter().enumerate() {
            if !count.is_none() {
                write!(f, " {count} as {number}")?;
            }
        }
        writeln!(f, "")?;
        writeln!(f, "calls replayed: {}", t.replayed)?;
        writeln!(f, "budgets about a bound: {}", t.bounds)?;
        writeln!(
            f,
            "answers of long sessions beside fresh and forgetful ones: {}",
            t.remembered
        )?;
        write!(f, "differences: {}", t.differences)
    }
}
