// Checks a whole build against the rules and the picks.
ghost use Rattle.std.specs.Prelude.{◌≡◌, ◌<◌, ◌≤◌, true, length, take, nat_eq};
ghost use Rattle.builds.specs.Values.{bits, up_to, allows};
ghost use Rattle.bank.specs.Banks.{meets_all};
ghost use Rattle.bank.specs.Numbers.{numbered};
ghost use Rattle.search_theory.specs.Values.{value_number};
ghost use Rattle.session.specs.View.{state_of};
ghost use Rattle.session.specs.Checking.{keeps, check_reply};

use crate::session::Session;
use bank::asked::values_up_to;
use bank::refusal::{Answer, Refusal};
use bank::rule_bank::RuleBank;

// Whether this value of a build is that of the option's pick, if it has one.
fn agrees(pick: Option<bool>, value: u8) -> bool
    ensures { result ≡ allows (value_number pick) (nat_eq value 1) }
{
    pick.is_none_or(|wanted| wanted == (value == 1))
}

// Whether the build has the value of every pick among the first `width` options.
fn keeps_picks(picks: &[Option<bool>], build: &[u8], width: usize) -> bool
    requires { width ≤ length build.now }
    ensures { result ≡ keeps picks.now (take width build.now) }
{
    picks
        .iter()
        .zip(&build[..width])
        .all(|(pick, value)| agrees(*pick, *value))
}

// Whether the build meets the rule. With every option valued, a bank says dead exactly of a rule that the build does not meet.
fn meets_rule<B: RuleBank>(b: &B, rule: usize, build: &[u8]) -> bool
    requires known { rule < (B.meaning b.now).rules }
    requires long { (B.meaning b.now).width ≤ length build.now }
    requires whole { up_to 1 (take (B.meaning b.now).width build.now) ≡ true }
    ensures { result ≡ (B.meaning b.now).meets rule (bits (take (B.meaning b.now).width build.now)) }
{
    let mut marks = [2u8; 128];
    b.mark(rule, build, &mut marks) == Ok(Answer::Live)
}

// Whether the build meets every rule of the bank.
fn meets_rules<B: RuleBank>(b: &B, build: &[u8]) -> bool
    requires long { (B.meaning b.now).width ≤ length build.now }
    requires whole { up_to 1 (take (B.meaning b.now).width build.now) ≡ true }
    ensures { result ≡ meets_all (B.meaning b.now) (bits (take (B.meaning b.now).width build.now)) }
{
    (0..b.count()).all(|rule| meets_rule(b, rule, build))
}

impl<B: RuleBank> Session<B> {
    // Whether the build meets every rule and keeps every pick. The session stays as it is, an open search included.
    // The values are numbers, since a caller may hand in wrong ones, which are then refused.
    pub fn check(&self, build: [u8; 128]) -> Result<bool, Refusal>
        ensures { numbered result ≡ check_reply (B.meaning self.now.bank) (state_of self.now).picks build }
    {
        let width = self.bank.width();
        if !values_up_to(&build, width, 1) {
            return Err(Refusal::BadValue);
        }
        Ok(meets_rules(&self.bank, &build) && keeps_picks(&self.picks, &build, width))
    }
}
