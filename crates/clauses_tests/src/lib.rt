// The edges of the clause bank, run: what opening refuses and accepts, and what mark refuses, with the place afterwards.
#![tactic(auto)]

#[cfg(test)]
mod tests {
    use bank::refusal::{Answer, Refusal};
    use bank::rule_bank::RuleBank;
    use bank::table_fault::{TableCause, TableFault};
    use clauses::table::Clauses;

    #[test]
    fn widths_and_options(rt: HostRuntime) {
        let mut bank = Clauses::empty();
        assert!(rt; bank.width() == 1 && bank.count() == 0);
        assert!(rt;
            bank.open(0, &[])
                == Err(TableFault {
                    cause: TableCause::BadWidth,
                    item: 0
                })
        );
        assert!(rt;
            bank.open(129, &[])
                == Err(TableFault {
                    cause: TableCause::BadWidth,
                    item: 0
                })
        );
        assert!(rt;
            bank.open(128, &[&[255], &[256]])
                == Err(TableFault {
                    cause: TableCause::OptionTooLarge,
                    item: 1
                })
        );
        assert!(rt; bank.width() == 1 && bank.count() == 0);
        assert!(rt; bank.open(128, &[&[255]]).is_ok());
        assert!(rt; bank.width() == 128 && bank.count() == 1);
        assert!(rt; bank.open(1, &[&[1]]).is_ok());
        assert!(rt;
            bank.add(&[2])
                == Err(TableFault {
                    cause: TableCause::OptionTooLarge,
                    item: 1
                })
        );
        assert!(rt; bank.add(&[0]).is_ok());
        assert!(rt; bank.width() == 1 && bank.count() == 2);
    }

    #[test]
    fn too_many(rt: HostRuntime) {
        let mut bank = Clauses::empty();
        let one: &[u32] = &[1];
        let longest: &[u32] = &[1; 32];
        let longer: &[u32] = &[1; 33];
        assert!(rt;
            bank.open(1, &[one; 513])
                == Err(TableFault {
                    cause: TableCause::TooMany,
                    item: 512
                })
        );
        assert!(rt;
            bank.open(1, &[&[2], longer])
                == Err(TableFault {
                    cause: TableCause::TooMany,
                    item: 1
                })
        );
        assert!(rt; bank.open(1, &[longest]).is_ok());
        assert!(rt;
            bank.add(longer)
                == Err(TableFault {
                    cause: TableCause::TooMany,
                    item: 1
                })
        );
        assert!(rt; bank.open(1, &[one; 512]).is_ok());
        assert!(rt;
            bank.room_for(0)
                == Err(TableFault {
                    cause: TableCause::TooMany,
                    item: 512
                })
        );
        assert!(rt;
            bank.add(one)
                == Err(TableFault {
                    cause: TableCause::TooMany,
                    item: 512
                })
        );
        assert!(rt; bank.count() == 512);
    }

    #[test]
    fn numbers_of_causes(rt: HostRuntime) {
        assert_eq!(rt; TableCause::BadWidth.number(), 11);
        assert_eq!(rt; TableCause::TooMany.number(), 12);
        assert_eq!(rt; TableCause::OptionTooLarge.number(), 15);
    }

    #[test]
    fn marks(rt: HostRuntime) {
        let mut bank = Clauses::empty();
        assert!(rt; bank.open(2, &[&[3, 3], &[2, 3], &[]]).is_ok());
        let mut place = [7u8; 3];
        assert!(rt; bank.mark(3, &[2, 2], &mut place) == Err(Refusal::NoSuchRule));
        assert!(rt; bank.mark(0, &[2], &mut place) == Err(Refusal::ShortPlace));
        assert!(rt; bank.mark(0, &[2, 3], &mut place) == Err(Refusal::BadValue));
        assert!(rt; bank.mark(2, &[2, 2], &mut place) == Ok(Answer::Dead));
        assert!(rt; place == [7, 7, 7]);
        assert!(rt; bank.mark(0, &[2, 2, 9], &mut place) == Ok(Answer::Live));
        assert!(rt; place == [2, 1, 7]);
        assert!(rt; bank.mark(1, &[2, 2], &mut place) == Ok(Answer::Live));
        assert!(rt; place == [2, 2, 7]);
        let read = bank.reads(0);
        assert!(rt; read.contains(1) && !read.contains(0));
    }
}
