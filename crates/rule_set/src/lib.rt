// Sets of rules, one bit each: which rules have nothing to say, and which read an option.
// A bank has at most 1,024 rules, so the sets have a fixed size, and an operation is a few machine instructions for each word that it touches.
#![tactic(auto)]

ghost use Rattle.std.specs.Prelude.{◌≡◌, ℕ, ◌<◌, false, not, ◌&&◌, ◌||◌, ◌==◌, length, nat_lt};
ghost use Rattle.rule_set.specs.Rules.{rule_in};

use option_set::OptionSet;

// The rules 0 to 1,023 that are in the set, 128 to a word. A word is a set of 128 numbers, whatever they number.
#[derive(Clone, Copy, Drop)]
pub struct RuleSet {
    words: [OptionSet; 8],
}

impl RuleSet {
    // The set without a rule.
    pub fn empty() -> RuleSet
        ensures { (r : ℕ) → rule_in result.words r ≡ false }
    {
        RuleSet {
            words: [OptionSet::empty(); 8],
        }
    }

    // Whether the rule is in the set; no rule from 1,024 on is.
    pub fn contains(&self, rule: usize) -> bool
        ensures { result ≡ (nat_lt rule 1024 && rule_in self.now.words rule) }
    {
        rule < 1024 && self.words[rule / 128].contains(rule % 128)
    }

    // One rule more in the set; a rule from 1,024 on is left out.
    pub fn insert(&mut self, rule: usize)
        ensures { (r : ℕ) → r < 1024 → rule_in self.new.words r ≡ (r == rule || rule_in self.old.words r) }
    {
        if rule < 1024 {
            self.words[rule / 128] = self.words[rule / 128].insert(rule % 128);
        }
    }

    // The set without the rules of the other.
    pub fn without(&mut self, other: &RuleSet)
        ensures { (r : ℕ) → r < 1024 → rule_in self.new.words r ≡ (rule_in self.old.words r && not (rule_in other.now.words r)) }
    {
        for word in 0..8 {
            self.words[word] = self.words[word].without(other.words[word]);
        }
    }
}
