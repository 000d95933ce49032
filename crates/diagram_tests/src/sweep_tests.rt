// Sweeps with weights of one's own, and what column and sweep refuse.
use crate::helpers::four_rows;
use bank::refusal::Refusal;
use bank::table_fault::TableFault;
use diagrams::table::Diagrams;
use std::test::Fail;
use sweeps::column::column;
use sweeps::semiring::Semiring;
use sweeps::sweep::sweep;
use sweeps::weights::Weights;

// A sweep over the four rows from node 5, and the places after it.
fn swept(
    rule: usize,
    low: &[u64],
    high: &[u64],
) -> Result<(Result<u64, Refusal>, [u64; 7]), TableFault> {
    let mut memory = four_rows();
    let mut table = Diagrams::empty(&mut memory);
    table.open(3, &four_rows(), &[5])?;
    let mut places = [9; 7];
    let sum = sweep(&table, rule, &Weights { low, high }, &mut places);
    Ok((sum, places))
}

// The builds that meet the rule are 001, 011, 101 and 110; the options weigh 2, 3, 5 at 0 and 7, 11, 13 at 1:
// 2 × 3 × 13 + 2 × 11 × 13 + 7 × 3 × 13 + 7 × 11 × 5 = 1022.
#[test]
fn sums_the_products_of_weights(rt: HostRuntime) -> Result<(), Fail> {
    assert!(rt; swept(0, &[2, 3, 5], &[7, 11, 13])? == (Ok(1022), [0, 1, 13, 5, 94, 1022, 9]));
    Ok(())
}

#[test]
fn refuses_to_sweep(rt: HostRuntime) -> Result<(), Fail> {
    assert!(rt; swept(1, &[1], &[1])? == (Err(Refusal::NoSuchRule), [9; 7]));
    assert!(rt; swept(0, &[1, 1], &[1, 1, 1])? == (Err(Refusal::ShortPlace), [9; 7]));
    assert!(rt; swept(0, &[1, 1, 1], &[1, 1])?.0 == Err(Refusal::ShortPlace));
    Ok(())
}

#[test]
fn says_which_nodes_are_live(rt: HostRuntime) -> Result<(), Fail> {
    let mut memory = four_rows();
    let mut table = Diagrams::empty(&mut memory);
    table.open(3, &four_rows(), &[5])?;
    let mut places = [false; 6];
    let weights = Weights {
        low: &[true, true, true],
        high: &[true, true, false],
    };
    column(&table, &weights, &mut places)?;
    assert!(rt; places == [false, true, false, true, true, true]);
    Ok(())
}

#[test]
fn refuses_a_short_column(rt: HostRuntime) -> Result<(), Fail> {
    let mut memory = four_rows();
    let mut table = Diagrams::empty(&mut memory);
    table.open(3, &four_rows(), &[5])?;
    let mut places = [true; 5];
    let weights = Weights {
        low: &[true, true, true],
        high: &[true, true, false],
    };
    assert!(rt; column(&table, &weights, &mut places) == Err(Refusal::ShortPlace));
    assert!(rt; places == [true; 5]);
    Ok(())
}
