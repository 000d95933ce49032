// Sets of options, one bit each: which options a rule reads, and what a value rests on.
// Every operation is a few machine instructions, so that a search can afford it at each step.
#![tactic(auto)]

ghost use Rattle.std.specs.Prelude.{◌≡◌, ℕ, ◌-◌, ◌<◌, false, not, ◌&&◌, ◌||◌, ◌==◌, nat_le, nat_lt};
ghost use Rattle.std.specs.List.{list_any};
ghost use Rattle.option_set.specs.Sets.{member, some_member, LowestOf, OnlyOf};

// What is of one option, as a literal is.
pub trait OfOption {
    ghost option: { Self → ℕ };

    // The option that it is of.
    fn of_option(&self) -> usize
        ensures { result ≡ option self.now };
}

// An option in a byte is of itself.
impl OfOption for u8 {
    ghost option = { λ byte. byte };

    fn of_option(&self) -> usize {
        *self as usize
    }
}

// The options 0 to 127 that are in the set.
#[derive(Clone, Copy, PartialEq, Eq, Default, Drop)]
pub struct OptionSet {
    members: u128,
}

impl OptionSet {
    // The set without an option.
    #[tactic(auto, using(crate::proofs::Digits::member_zero))]
    pub fn empty() -> OptionSet
        ensures { (o : ℕ) → member result.members o ≡ false }
    {
        OptionSet { members: 0 }
    }

    // The options that the items are of; those from 128 on are left out.
    pub fn of<T: OfOption>(items: &[T]) -> OptionSet
        ensures { (o : ℕ) → o < 128 → member result.members o ≡ list_any (λ x. o == T.option x) items.now }
    {
        items.iter().fold(OptionSet::empty(), |set, item| set.insert(item.of_option()))
    }

    // The options below `n`; all of them from 128 on.
    pub fn below(n: usize) -> OptionSet
        ensures { (o : ℕ) → o < 128 → member result.members o ≡ nat_lt o n }
    {
        if n >= 128 {
            return OptionSet { members: u128::MAX };
        }
        OptionSet {
            members: (1u128 << n) - 1,
        }
    }

    // Whether the option is in the set; no option from 128 on is.
    #[tactic(auto, using(crate::proofs::Digits::member_read))]
    pub fn contains(self, option: usize) -> bool
        ensures { result ≡ (nat_lt option 128 && member self.members option) }
    {
        option < 128 && (self.members >> option) & 1 == 1
    }

    // The set with one option more; an option from 128 on is left out.
    pub fn insert(self, option: usize) -> OptionSet
        ensures { (o : ℕ) → o < 128 → member result.members o ≡ (o == option || member self.members o) }
    {
        if option >= 128 {
            return self;
        }
        OptionSet {
            members: self.members | (1u128 << option),
        }
    }

    // The options that are in one of the sets.
    #[tactic(auto, using(crate::proofs::Digits::member_or))]
    pub fn union(self, other: OptionSet) -> OptionSet
        ensures { (o : ℕ) → member result.members o ≡ (member self.members o || member other.members o) }
    {
        OptionSet {
            members: self.members | other.members,
        }
    }

    // The options that are in both sets.
    #[tactic(auto, using(crate::proofs::Digits::member_and))]
    pub fn common(self, other: OptionSet) -> OptionSet
        ensures { (o : ℕ) → member result.members o ≡ (member self.members o && member other.members o) }
    {
        OptionSet {
            members: self.members & other.members,
        }
    }

    // The options of this set that are not in the other.
    #[tactic(auto, using(crate::proofs::Digits::member_less))]
    pub fn without(self, other: OptionSet) -> OptionSet
        ensures { (o : ℕ) → member result.members o ≡ (member self.members o && not (member other.members o)) }
    {
        OptionSet {
            members: self.members ^ (self.members & other.members),
        }
    }

    // Each option moved up by `by`; those that leave the 128 options are dropped.
    pub fn shifted(self, by: usize) -> OptionSet
        ensures { (o : ℕ) → o < 128 → member result.members o ≡ (nat_le by o && member self.members (o - by)) }
    {
        if by >= 128 {
            return OptionSet::empty();
        }
        OptionSet {
            members: self.members << by,
        }
    }

    // Whether no option is in the set.
    #[tactic(auto, using(crate::proofs::Digits::empty_test))]
    pub fn is_empty(self) -> bool
        ensures { result ≡ not (some_member 128 self.members) }
    {
        self.members == 0
    }

    // The set without the option.
    pub fn remove(self, option: usize) -> OptionSet
        ensures { (o : ℕ) → o < 128 → member result.members o ≡ (not (o == option) && member self.members o) }
    {
        self.without(OptionSet::empty().insert(option))
    }

    // The lowest option of the set.
    pub fn lowest(self) -> Option<usize>
        ensures { LowestOf self.members result }
    {
        if self.is_empty() {
            return None;
        }
        Some(self.members.trailing_zeros() as usize)
    }

    // The set without its lowest option: those stay that have another below them.
    // A number less one has the lowest 1 cleared, and all above it as it was.
    pub fn without_lowest(self) -> OptionSet
        ensures { (o : ℕ) → member result.members o ≡ (member self.members o && some_member o self.members) }
    {
        OptionSet {
            members: self.members & self.members.wrapping_sub(1),
        }
    }

    // The option of a set that has just one.
    pub fn only(self) -> Option<usize>
        ensures { OnlyOf self.members result }
    {
        if self.without_lowest().is_empty() {
            return self.lowest();
        }
        None
    }
}
