// For each option the rules of a bank that read it.
ghost use Rattle.std.specs.Prelude.{◌≡◌, ℕ, ◌<◌, ◌&&◌, ◌||◌, ◌==◌, length};
ghost use Rattle.option_set.specs.Sets.{member};
ghost use Rattle.quiet.specs.Readers.{Reading, read_by};

use bank::rule_bank::RuleBank;
use option_set::OptionSet;
use rule_set::RuleSet;

// One set of rules for each option that a bank can have.
#[derive(Drop)]
pub struct Readers {
    pub(crate) rules: [RuleSet; 128],
    ghost sized: { length rules ≡ 128 },
}

// The rule reads the options of the set.
fn enter(readers: &mut [RuleSet; 128], rule: usize, reads: OptionSet)
    requires { length readers.old ≡ 128 }
    ensures long { length readers.new ≡ 128 }
    ensures entered { (o r : ℕ) → o < 128 → r < 1024 → read_by readers.new o r ≡ (read_by readers.old o r || r == rule && member reads.members o) }
{
    for option in 0..128 {
        if reads.contains(option) {
            readers[option].insert(rule);
        }
    }
}

impl Readers {
    // The readers of the bank's options.
    pub fn of<B: RuleBank>(b: &B) -> Readers
        ensures { Reading (B.meaning b.now) (B.reading b.now) result.rules }
    {
        let mut rules = [RuleSet::empty(); 128];
        for rule in 0..b.count() {
            enter(&mut rules, rule, b.reads(rule));
        }
        Readers { rules }
    }
}
