// Analysis of a clash, a set of picks and decisions that cannot stand together: the decision to flip, the level that is kept,
// and the clause that is learnt.
ghost use Rattle.std.specs.Prelude.{◌≡◌, ℕ, ◌≤◌, MatchOption};
ghost use Rattle.option_set.specs.Sets.{member};
ghost use Rattle.clauses.specs.TwoSets.{spelled};
ghost use Rattle.search_theory.specs.Backed.{Roots};
ghost use Rattle.search_theory.specs.Denials.{denial_of};
ghost use Rattle.search_theory.specs.Jumps.{LastIn, NoDecision, top_level};
ghost use Rattle.trail.specs.View.{trail_of};

use clauses::set_clause::SetClause;
use option_set::OptionSet;
use trail::trail::Trail;

// The last decision in the clash, if there is one. The lowest open option is decided first, so the last decision has the highest option.
#[tactic(auto, using(crate::proofs::Gathering::gathered))]
pub fn last_decision(trail: &Trail, clash: OptionSet, width: usize) -> Option<usize>
    requires { width ≤ 128 }
    ensures { MatchOption result (NoDecision width (trail_of trail.now.entries) (member clash.members)) (LastIn width (trail_of trail.now.entries) (member clash.members)) }
{
    // loops here and below: `find` over a range from its end and `filter` with `fold` were tried, and the check then finds no proof alone
    for option in (0..width).rev() {
        if clash.contains(option) && trail.is_decision(option) {
            return Some(option);
        }
    }
    None
}

// The highest level in the set: the trail can be cut to it, and the set still stands.
#[tactic(auto, using(crate::proofs::Gathering::gathered), unfolding(search_theory::specs::Jumps::top_level))]
pub fn highest_level(trail: &Trail, set: OptionSet, width: usize) -> u8
    requires { width ≤ 128 }
    ensures { result ≡ top_level width (member set.members) (trail_of trail.now.entries) }
{
    let mut highest: u8 = 0;
    for option in 0..width {
        if set.contains(option) {
            highest = highest.max(trail.level(option));
        }
    }
    highest
}

// The clause against the clash: in every build that meets the bank one of its picks and decisions has the other value.
// It wants taken what the clash has left out, and left out what it has taken.
pub fn denial(trail: &Trail, clash: OptionSet, width: usize) -> SetClause
    requires { width ≤ 128 }
    ensures { (k : ℕ) → Roots width (trail_of trail.now.entries) (member clash.members) k → spelled result ≡ denial_of (member clash.members) width (trail_of trail.now.entries) }
{
    let values = trail.value_sets();
    let clash = clash.common(OptionSet::below(width));
    SetClause {
        taken: clash.common(values.left_out),
        left_out: clash.common(values.taken),
    }
}
