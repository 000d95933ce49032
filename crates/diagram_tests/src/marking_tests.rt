// Marks of diagram rules, and which options they read.
use crate::helpers::{four_rows, marked, row};
use bank::refusal::{Answer, Refusal};
use bank::rule_bank::RuleBank;
use diagram_bank::rules::DiagramRules;
use diagrams::table::Diagrams;
use std::test::Fail;

#[test]
fn marks_what_all_fitting_builds_give(rt: HostRuntime) -> Result<(), Fail> {
    assert!(rt; marked(3, &four_rows(), &[5], 0, &[2, 0, 2])? == (Ok(Answer::Live), [2, 0, 1, 9]));
    assert!(rt; marked(3, &four_rows(), &[5], 0, &[2, 2, 2])? == (Ok(Answer::Live), [2, 2, 2, 9]));
    assert!(rt; marked(3, &four_rows(), &[5], 0, &[0, 2, 0])? == (Ok(Answer::Dead), [9; 4]));
    Ok(())
}

#[test]
fn frees_jumped_options(rt: HostRuntime) -> Result<(), Fail> {
    assert!(rt; marked(2, &[row(0, 0, 1)], &[2], 0, &[2, 2])? == (Ok(Answer::Live), [1, 2, 9, 9]));
    assert!(rt; marked(2, &[], &[0, 1], 1, &[2, 2])? == (Ok(Answer::Live), [2, 2, 9, 9]));
    assert!(rt; marked(2, &[], &[0, 1], 1, &[2, 0])? == (Ok(Answer::Live), [2, 0, 9, 9]));
    assert!(rt; marked(2, &[], &[0, 1], 0, &[2, 2])? == (Ok(Answer::Dead), [9; 4]));
    Ok(())
}

#[test]
fn refuses_to_mark(rt: HostRuntime) -> Result<(), Fail> {
    assert!(rt; marked(3, &four_rows(), &[5], 1, &[7])? == (Err(Refusal::NoSuchRule), [9; 4]));
    assert!(rt; marked(3, &four_rows(), &[5], 0, &[7, 7])? == (Err(Refusal::ShortPlace), [9; 4]));
    assert!(rt;
        marked(5, &four_rows(), &[5], 0, &[7, 7, 7, 7, 7])? == (Err(Refusal::ShortPlace), [9; 4])
    );
    assert!(rt; marked(3, &four_rows(), &[5], 0, &[2, 3, 2])? == (Err(Refusal::BadValue), [9; 4]));
    assert!(rt;
        marked(3, &four_rows(), &[5], 0, &[2, 2, 2, 3])? == (Ok(Answer::Live), [2, 2, 2, 9])
    );
    Ok(())
}

#[test]
fn reads_the_options_of_reached_rows(rt: HostRuntime) -> Result<(), Fail> {
    let mut memory = four_rows();
    let mut table = Diagrams::empty(&mut memory);
    table.open(3, &four_rows(), &[4, 1])?;
    let rules = DiagramRules { table: &table };
    assert!(rt; rules.width() == 3 && rules.count() == 2);
    let some = rules.reads(0);
    assert!(rt; !some.contains(0) && some.contains(1) && some.contains(2));
    assert!(rt; rules.reads(1).is_empty() && rules.reads(2).is_empty());
    Ok(())
}

#[test]
fn numbers_of_refusals(rt: HostRuntime) {
    assert_eq!(rt; Refusal::NoSuchRule.number(), 7);
    assert_eq!(rt; Refusal::ShortPlace.number(), 8);
    assert_eq!(rt; Refusal::BadValue.number(), 9);
    assert_eq!(rt; Refusal::TooManyOpen.number(), 10);
}
