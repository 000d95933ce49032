// What the layers answer and write, and what they refuse. 9 stands for a place that is not written.
use crate::wants::Wants;
use bank::refusal::{Answer, Refusal};
use bank::rule_bank::RuleBank;
use layers::pair::Pair;
use layers::shift::Shift;

// Whether the rule, with every option open, marks this one taken, leaves its neighbours open and reads it alone among them.
fn wants_only<B: RuleBank>(b: &B, rule: usize, option: usize) -> bool {
    let values = [2u8; 128];
    let mut marks = [9u8; 130];
    if b.mark(rule, &values, &mut marks) != Ok(Answer::Live) || option >= 128 {
        return false;
    }
    let reads = b.reads(rule);
    let below = option == 0 || (marks[option - 1] == 2 && !reads.contains(option - 1));
    let above = marks[option + 1] != 1 && !reads.contains(option + 1);
    marks[option] == 1 && reads.contains(option) && below && above
}

#[test]
fn a_pair_numbers_on(rt: HostRuntime) {
    let pair = Pair::new(Wants::new(2, 3), Wants::new(5, 4));
    assert_eq!(rt; pair.width(), 5);
    assert_eq!(rt; pair.count(), 7);
    let values = [2, 2, 0, 1, 2, 7];
    let mut marks = [9u8; 6];
    assert!(rt; pair.mark(1, &values, &mut marks) == Ok(Answer::Live));
    assert!(rt; marks == [2, 1, 0, 1, 2, 9]);
    assert!(rt; pair.mark(3, &values, &mut marks) == Ok(Answer::Live));
    assert!(rt; marks == [1, 2, 0, 1, 2, 9]);
    assert!(rt; pair.mark(5, &values, &mut marks) == Ok(Answer::Dead));
    assert!(rt; marks == [1, 2, 0, 1, 2, 9]);
    assert!(rt; wants_only(&pair, 2, 0));
    assert!(rt; wants_only(&pair, 6, 3));
}

#[test]
fn a_pair_leaves_off_rules_past_the_last(rt: HostRuntime) {
    let full = Pair::new(Wants::new(3, 1024), Wants::new(2, 1));
    assert_eq!(rt; full.count(), 1024);
    assert!(rt; wants_only(&full, 1022, 2));
    assert!(rt; wants_only(&full, 1023, 0));
    let mut marks = [9u8; 3];
    assert!(rt; full.mark(1024, &[2, 2, 2], &mut marks) == Err(Refusal::NoSuchRule));
    assert!(rt; marks == [9, 9, 9]);
    let cut = Pair::new(Wants::new(3, 1020), Wants::new(4, 10));
    assert_eq!(rt; cut.count(), 1024);
    assert!(rt; wants_only(&cut, 1020, 0));
    assert!(rt; wants_only(&cut, 1023, 3));
    assert!(rt; cut.mark(1024, &[2, 2, 2, 2], &mut [9u8; 4]) == Err(Refusal::NoSuchRule));
}

#[test]
fn a_shift_moves_up(rt: HostRuntime) {
    let shift = Shift::new(Wants::new(3, 3), 2);
    assert_eq!(rt; shift.width(), 5);
    assert_eq!(rt; shift.count(), 3);
    let mut marks = [9u8; 6];
    assert!(rt; shift.mark(1, &[2, 0, 2, 2, 1, 7], &mut marks) == Ok(Answer::Live));
    assert!(rt; marks == [2, 0, 2, 1, 1, 9]);
    assert!(rt; shift.mark(1, &[1, 2, 2, 0, 2], &mut marks) == Ok(Answer::Dead));
    assert!(rt; marks == [2, 0, 2, 1, 1, 9]);
    assert!(rt; wants_only(&shift, 0, 2));
    assert!(rt; wants_only(&shift, 2, 4));
}

#[test]
fn a_shift_stays_within_the_options(rt: HostRuntime) {
    let last = Shift::new(Wants::new(4, 4), 124);
    assert_eq!(rt; last.width(), 128);
    assert!(rt; wants_only(&last, 0, 124));
    assert!(rt; wants_only(&last, 3, 127));
    let past = Shift::new(Wants::new(4, 4), 125);
    assert_eq!(rt; past.width(), 128);
    assert!(rt; wants_only(&past, 0, 124));
    let far = Shift::new(Wants::new(4, 4), usize::MAX);
    assert_eq!(rt; far.width(), 128);
    assert!(rt; wants_only(&far, 1, 125));
    let whole = Shift::new(Wants::new(128, 128), 1);
    assert_eq!(rt; whole.width(), 128);
    assert!(rt; wants_only(&whole, 0, 0));
}

#[test]
fn layers_nest(rt: HostRuntime) {
    let inner = Pair::new(Wants::new(2, 2), Wants::new(3, 3));
    let bank = Pair::new(Shift::new(inner, 2), Wants::new(4, 1));
    assert_eq!(rt; bank.width(), 5);
    assert_eq!(rt; bank.count(), 6);
    assert!(rt; wants_only(&bank, 0, 2));
    assert!(rt; wants_only(&bank, 1, 3));
    assert!(rt; wants_only(&bank, 2, 2));
    assert!(rt; wants_only(&bank, 4, 4));
    assert!(rt; wants_only(&bank, 5, 0));
    let twice = Shift::new(Shift::new(bank, 100), 100);
    assert_eq!(rt; twice.width(), 128);
    assert!(rt; wants_only(&twice, 4, 127));
    assert!(rt; wants_only(&twice, 5, 123));
}

#[test]
fn a_pair_refuses_by_its_own_width(rt: HostRuntime) {
    let pair = Pair::new(Wants::new(2, 3), Wants::new(5, 4));
    let mut marks = [9u8; 4];
    assert!(rt; pair.mark(7, &[3, 3], &mut marks) == Err(Refusal::NoSuchRule));
    assert!(rt; pair.mark(0, &[3, 2, 2, 2, 2], &mut marks) == Err(Refusal::ShortPlace));
    assert!(rt; marks == [9, 9, 9, 9]);
    let mut wide = [9u8; 5];
    assert!(rt; pair.mark(0, &[2, 2, 2, 2], &mut wide) == Err(Refusal::ShortPlace));
    assert!(rt; pair.mark(0, &[2, 2, 2, 2, 3], &mut wide) == Err(Refusal::BadValue));
    assert!(rt; wide == [9, 9, 9, 9, 9]);
    assert!(rt; pair.mark(0, &[2, 2, 2, 2, 2, 3], &mut wide) == Ok(Answer::Live));
    assert!(rt; wide == [1, 2, 2, 2, 2]);
}

#[test]
fn a_shift_refuses_by_its_own_width(rt: HostRuntime) {
    let shift = Shift::new(Wants::new(2, 1), 3);
    let mut marks = [9u8; 4];
    assert!(rt; shift.mark(1, &[3, 3], &mut marks) == Err(Refusal::NoSuchRule));
    assert!(rt; shift.mark(0, &[3, 2, 2, 2, 2], &mut marks) == Err(Refusal::ShortPlace));
    assert!(rt; marks == [9, 9, 9, 9]);
    let mut wide = [9u8; 5];
    assert!(rt; shift.mark(0, &[2, 2, 2, 2], &mut wide) == Err(Refusal::ShortPlace));
    assert!(rt; shift.mark(0, &[3, 2, 2, 2, 2], &mut wide) == Err(Refusal::BadValue));
    assert!(rt; wide == [9, 9, 9, 9, 9]);
    assert!(rt; shift.mark(0, &[0, 1, 2, 2, 2, 3], &mut wide) == Ok(Answer::Live));
    assert!(rt; wide == [0, 1, 2, 1, 2]);
}

#[test]
fn numbers_of_refusals(rt: HostRuntime) {
    assert_eq!(rt; Refusal::NoSuchRule.number(), 7);
    assert_eq!(rt; Refusal::ShortPlace.number(), 8);
    assert_eq!(rt; Refusal::BadValue.number(), 9);
}
