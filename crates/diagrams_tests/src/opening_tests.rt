// Opening whole tables: what is taken over, each cause with its item, and what a refusal leaves.
ghost use Rattle.std.specs.Prelude.{◌≡◌, true};
ghost use Rattle.diagrams.specs.Filled.{front_replaced};

use crate::helpers::{four_rows, row, untouched};
use bank::table_fault::{TableCause, TableFault};
use diagrams::row::Row;
use diagrams::table::Diagrams;
use std::test::Fail;

#[test]
fn takes_over_a_table(rt: HostRuntime) -> Result<(), Fail> {
    let mut memory = [row(9, 9, 9); 6];
    let mut bank = Diagrams::empty(&mut memory);
    assert!(rt; untouched(&bank));
    bank.open(3, &four_rows(), &[5, 4, 0, 1])?;
    assert!(rt; bank.width == 3 && bank.used == 4 && bank.roots.len() == 4);
    let last = bank.rows[3];
    assert!(rt; last == row(0, 2, 4));
    assert!(rt; bank.roots[0].node == 5 && bank.roots[3].node == 1);
    let reads = bank.roots[1].reads;
    assert!(rt; !reads.contains(0) && reads.contains(1) && reads.contains(2) && !reads.contains(3));
    assert!(rt; bank.roots[2].reads.is_empty());
    Ok(())
}

// What a caller knows of the memory that it lent once the bank is gone: a table that was opened stands in front.
fn opened_over(memory: &mut [Row], table: &[Row]) -> bool
    ensures { result ≡ true → memory.new ≡ front_replaced table.now memory.old }
{
    let mut bank = Diagrams::empty(memory);
    bank.open(1, table, &[]).is_ok()
}

#[test]
fn gives_the_memory_back_filled(rt: HostRuntime) {
    let mut memory = [row(9, 9, 9); 2];
    assert!(rt; opened_over(&mut memory, &[row(0, 0, 1)]));
    assert!(rt; memory[0] == row(0, 0, 1) && memory[1] == row(9, 9, 9));
}

#[test]
fn opens_once_more(rt: HostRuntime) -> Result<(), Fail> {
    let mut memory = [row(9, 9, 9); 4];
    let mut bank = Diagrams::empty(&mut memory);
    bank.open(3, &four_rows(), &[5])?;
    bank.open(128, &[], &[1])?;
    assert!(rt; bank.width == 128 && bank.used == 0 && bank.roots.len() == 1);
    assert!(rt; bank.roots[0].node == 1 && bank.roots[0].reads.is_empty());
    Ok(())
}

#[test]
fn takes_2048_rows(rt: HostRuntime) -> Result<(), Fail> {
    let mut memory = [row(0, 0, 1); 2048];
    let mut bank = Diagrams::empty(&mut memory);
    bank.open(1, &[row(0, 0, 1); 2048], &[2049])?;
    assert!(rt; bank.used == 2048 && bank.roots[0].reads.contains(0));
    Ok(())
}

#[test]
fn refuses_2049_rows(rt: HostRuntime) {
    let mut memory = [row(9, 9, 9); 2050];
    let mut bank = Diagrams::empty(&mut memory);
    assert!(rt;
        bank.open(1, &[row(0, 0, 1); 2049], &[])
            == Err(TableFault {
                cause: TableCause::TooMany,
                item: 2048
            })
    );
    assert!(rt; untouched(&bank));
}

#[test]
fn refuses_more_rows_than_lent(rt: HostRuntime) {
    let mut memory = [row(9, 9, 9); 3];
    let mut bank = Diagrams::empty(&mut memory);
    assert!(rt;
        bank.open(3, &four_rows(), &[7; 129])
            == Err(TableFault {
                cause: TableCause::TooMany,
                item: 3
            })
    );
    assert!(rt; untouched(&bank));
}

#[test]
fn takes_128_roots_and_refuses_129(rt: HostRuntime) -> Result<(), Fail> {
    let mut memory = [row(9, 9, 9); 4];
    let mut bank = Diagrams::empty(&mut memory);
    assert!(rt;
        bank.open(3, &four_rows(), &[5; 129])
            == Err(TableFault {
                cause: TableCause::TooMany,
                item: 128
            })
    );
    assert!(rt; untouched(&bank));
    bank.open(3, &four_rows(), &[5; 128])?;
    assert!(rt; bank.roots.len() == 128 && bank.roots[127].node == 5);
    Ok(())
}

#[test]
fn refuses_a_width_of_0_or_129(rt: HostRuntime) -> Result<(), Fail> {
    let mut memory = [row(9, 9, 9); 1];
    let mut bank = Diagrams::empty(&mut memory);
    assert!(rt;
        bank.open(0, &[row(5, 7, 7); 9], &[9])
            == Err(TableFault {
                cause: TableCause::BadWidth,
                item: 0
            })
    );
    assert!(rt;
        bank.open(129, &[], &[])
            == Err(TableFault {
                cause: TableCause::BadWidth,
                item: 0
            })
    );
    assert!(rt; untouched(&bank));
    bank.open(128, &[row(127, 0, 1)], &[2])?;
    assert!(rt; bank.width == 128 && bank.roots[0].reads.contains(127));
    Ok(())
}

#[test]
fn names_the_first_row_of_the_first_cause(rt: HostRuntime) {
    let mut memory = [row(9, 9, 9); 4];
    let mut bank = Diagrams::empty(&mut memory);
    // an option too large counts before an arrow, an arrow before a child, a child before a root
    assert!(rt;
        bank.open(3, &[row(1, 0, 3), row(3, 0, 1), row(3, 0, 1)], &[9])
            == Err(TableFault {
                cause: TableCause::OptionTooLarge,
                item: 1
            })
    );
    assert!(rt;
        bank.open(
            3,
            &[row(2, 0, 1), row(2, 2, 1), row(0, 4, 0), row(0, 0, 9)],
            &[9]
        ) == Err(TableFault {
            cause: TableCause::ArrowNotDown,
            item: 2
        })
    );
    assert!(rt;
        bank.open(3, &[row(1, 0, 1), row(1, 0, 2), row(2, 2, 0)], &[9])
            == Err(TableFault {
                cause: TableCause::ChildNotLater,
                item: 1
            })
    );
    assert!(rt;
        bank.open(3, &four_rows(), &[5, 6, 9])
            == Err(TableFault {
                cause: TableCause::RootUnknown,
                item: 1
            })
    );
    assert!(rt; untouched(&bank));
}

#[test]
fn a_refusal_keeps_what_was_open(rt: HostRuntime) -> Result<(), Fail> {
    let mut memory = [row(9, 9, 9); 4];
    let mut bank = Diagrams::empty(&mut memory);
    bank.open(3, &four_rows(), &[5])?;
    assert!(rt;
        bank.open(2, &[row(0, 2, 0)], &[])
            == Err(TableFault {
                cause: TableCause::ArrowNotDown,
                item: 0
            })
    );
    assert!(rt; bank.width == 3 && bank.used == 4 && bank.roots.len() == 1);
    let first = bank.rows[0];
    assert!(rt;
        first == row(2, 0, 1) && bank.roots[0].node == 5 && bank.roots[0].reads.contains(0)
    );
    Ok(())
}

#[test]
fn numbers_of_causes(rt: HostRuntime) {
    assert_eq!(rt; TableCause::BadWidth.number(), 11);
    assert_eq!(rt; TableCause::TooMany.number(), 12);
    assert_eq!(rt; TableCause::ArrowNotDown.number(), 13);
    assert_eq!(rt; TableCause::ChildNotLater.number(), 14);
    assert_eq!(rt; TableCause::OptionTooLarge.number(), 15);
    assert_eq!(rt; TableCause::RootUnknown.number(), 16);
}
