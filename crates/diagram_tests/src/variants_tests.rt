// How many fitting builds meet a rule, up to the last number of open options that is counted.
use crate::helpers::{counted, four_rows, row};
use bank::refusal::Refusal;
use std::test::Fail;

#[test]
fn counts_the_builds(rt: HostRuntime) -> Result<(), Fail> {
    assert!(rt; counted(3, &four_rows(), 5, 0, &[2, 2, 2])? == (Ok(4), [0, 1, 1, 1, 2, 4, 9]));
    assert!(rt; counted(3, &four_rows(), 5, 0, &[0, 2, 0])?.0 == Ok(0));
    assert!(rt; counted(2, &[row(0, 0, 1)], 2, 0, &[2, 2])?.0 == Ok(2));
    Ok(())
}

#[test]
fn counts_up_to_62_open_options(rt: HostRuntime) -> Result<(), Fail> {
    assert!(rt; counted(62, &[], 1, 0, &[2; 62])? == (Ok(1u64 << 62), [0, 1, 9, 9, 9, 9, 9]));
    assert!(rt; counted(63, &[], 1, 0, &[2; 63])? == (Err(Refusal::TooManyOpen), [9; 7]));
    Ok(())
}

#[test]
fn refuses_to_count(rt: HostRuntime) -> Result<(), Fail> {
    assert!(rt; counted(3, &four_rows(), 5, 1, &[7])? == (Err(Refusal::NoSuchRule), [9; 7]));
    assert!(rt; counted(3, &four_rows(), 5, 0, &[7, 7])?.0 == Err(Refusal::ShortPlace));
    assert!(rt; counted(3, &four_rows(), 5, 0, &[2, 2, 3])?.0 == Err(Refusal::BadValue));
    Ok(())
}
