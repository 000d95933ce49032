// Filling a bank row by row and root by root.
use crate::helpers::row;
use bank::table_fault::{TableCause, TableFault};
use diagrams::table::Diagrams;
use std::test::Fail;

#[test]
fn adds_rows_between_roots(rt: HostRuntime) -> Result<(), Fail> {
    let mut memory = [row(9, 9, 9); 4];
    let mut bank = Diagrams::empty(&mut memory);
    bank.open(3, &[], &[])?;
    bank.add_row(row(2, 0, 1))?;
    bank.add_root(2)?;
    bank.add_row(row(0, 2, 1))?;
    bank.add_root(3)?;
    assert!(rt; bank.used == 2 && bank.roots.len() == 2);
    let second = bank.rows[1];
    assert!(rt; second == row(0, 2, 1) && bank.roots[1].node == 3);
    assert!(rt;
        !bank.roots[0].reads.contains(0)
            && bank.roots[1].reads.contains(0)
            && bank.roots[1].reads.contains(2)
    );
    Ok(())
}

#[test]
fn refuses_a_row_by_its_first_cause(rt: HostRuntime) -> Result<(), Fail> {
    let mut memory = [row(9, 9, 9); 2];
    let mut bank = Diagrams::empty(&mut memory);
    bank.open(3, &[row(1, 0, 1)], &[])?;
    assert!(rt;
        bank.add_row(row(3, 3, 0))
            == Err(TableFault {
                cause: TableCause::OptionTooLarge,
                item: 1
            })
    );
    assert!(rt;
        bank.add_row(row(1, 2, 3))
            == Err(TableFault {
                cause: TableCause::ArrowNotDown,
                item: 1
            })
    );
    assert!(rt;
        bank.add_row(row(1, 0, 2))
            == Err(TableFault {
                cause: TableCause::ChildNotLater,
                item: 1
            })
    );
    assert!(rt; bank.used == 1);
    bank.add_row(row(0, 0, 2))?;
    assert!(rt;
        bank.add_row(row(3, 9, 9))
            == Err(TableFault {
                cause: TableCause::TooMany,
                item: 2
            })
    );
    assert!(rt; bank.used == 2);
    Ok(())
}

#[test]
fn adds_rows_up_to_2048(rt: HostRuntime) -> Result<(), Fail> {
    let mut memory = [row(9, 9, 9); 2050];
    let mut bank = Diagrams::empty(&mut memory);
    for _ in 0..2048 {
        bank.add_row(row(0, 1, 0))?;
    }
    assert!(rt;
        bank.add_row(row(0, 0, 1))
            == Err(TableFault {
                cause: TableCause::TooMany,
                item: 2048
            })
    );
    bank.add_root(2049)?;
    assert!(rt; bank.used == 2048 && bank.roots.len() == 1 && bank.roots[0].reads.contains(0));
    Ok(())
}

#[test]
fn refuses_a_root_by_its_first_cause(rt: HostRuntime) -> Result<(), Fail> {
    let mut memory = [row(9, 9, 9); 1];
    let mut bank = Diagrams::empty(&mut memory);
    bank.open(1, &[row(0, 0, 1)], &[])?;
    bank.add_root(0)?;
    bank.add_root(1)?;
    assert!(rt;
        bank.add_root(3)
            == Err(TableFault {
                cause: TableCause::RootUnknown,
                item: 2
            })
    );
    for _ in 2..128 {
        bank.add_root(2)?;
    }
    assert!(rt;
        bank.add_root(3)
            == Err(TableFault {
                cause: TableCause::TooMany,
                item: 128
            })
    );
    assert!(rt;
        bank.roots.len() == 128
            && bank.roots[1].reads.is_empty()
            && bank.roots[127].reads.contains(0)
    );
    Ok(())
}
