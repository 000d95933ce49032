// The rules that have nothing to say at some values.
ghost use Rattle.std.specs.Prelude.{◌≡◌, ℕ, ◌<◌, false, not, ◌&&◌, ◌||◌, ◌==◌, length, replicate, nat_lt};
ghost use Rattle.rule_set.specs.Rules.{rule_in};
ghost use Rattle.quiet.specs.Readers.{woken};

use crate::readers::Readers;
use rule_set::RuleSet;

// The values, and the rules that said nothing new there.
#[derive(Drop)]
pub struct Quiet {
    pub(crate) values: [u8; 128],
    pub(crate) rules: RuleSet,
    ghost sized: { length values ≡ 128 },
}

impl Quiet {
    // Every rule is yet to be asked.
    pub fn none() -> Quiet
        ensures rules { (r : ℕ) → rule_in result.rules.words r ≡ false }
        ensures values { result.values ≡ replicate 128 2 }
    {
        Quiet {
            values: [2; 128],
            rules: RuleSet::empty(),
        }
    }

    #[tactic(auto, unfolding(crate::specs::Readers::woken))]
    // The values are these now: the rules that read an option whose value has changed are to be asked again.
    pub fn wake(&mut self, readers: &Readers, values: &[u8; 128])
        ensures rules { (r : ℕ) → r < 1024 → rule_in self.new.rules.words r ≡ (rule_in self.old.rules.words r && not (woken readers.now.rules self.old.values values.now 128 r)) }
        ensures values { self.new.values ≡ values.now }
    {
        for option in 0..128 {
            if self.values[option] != values[option] {
                self.rules.without(&readers.rules[option]);
            }
        }
        self.values = *values;
    }

    // Whether the rule need not be asked.
    pub fn holds(&self, rule: usize) -> bool
        ensures { result ≡ (nat_lt rule 1024 && rule_in self.now.rules.words rule) }
    {
        self.rules.contains(rule)
    }

    // The rule said nothing new.
    pub fn hush(&mut self, rule: usize)
        ensures rules { (r : ℕ) → r < 1024 → rule_in self.new.rules.words r ≡ (r == rule || rule_in self.old.rules.words r) }
        ensures values { self.new.values ≡ self.old.values }
    {
        self.rules.insert(rule);
    }
}
