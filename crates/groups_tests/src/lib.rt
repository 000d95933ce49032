// The edges of the group bank, run: what opening and adding refuse and accept, and what mark says and leaves.
#![tactic(auto)]

#[cfg(test)]
mod tests {
    use bank::refusal::{Answer, Refusal};
    use bank::rule_bank::RuleBank;
    use bank::table_fault::{TableCause, TableFault};
    use groups::table::Groups;
    use groups::text::GroupText;

    fn group(lo: u32, hi: u32, options: &[u32]) -> GroupText<'_> {
        GroupText { lo, hi, options }
    }

    #[test]
    fn widths_and_options(rt: HostRuntime) {
        let mut bank = Groups::empty();
        assert!(rt; bank.width() == 1 && bank.count() == 0);
        assert!(rt;
            bank.open(0, &[])
                == Err(TableFault {
                    cause: TableCause::BadWidth,
                    item: 0
                })
        );
        assert!(rt;
            bank.open(129, &[])
                == Err(TableFault {
                    cause: TableCause::BadWidth,
                    item: 0
                })
        );
        assert!(rt;
            bank.open(128, &[group(0, 1, &[127]), group(0, 1, &[128])])
                == Err(TableFault {
                    cause: TableCause::OptionTooLarge,
                    item: 1
                })
        );
        assert!(rt; bank.width() == 1 && bank.count() == 0);
        assert!(rt; bank.open(128, &[group(0, 1, &[127])]).is_ok());
        assert!(rt; bank.width() == 128 && bank.count() == 1);
        assert!(rt;
            bank.add(&group(0, 1, &[128]))
                == Err(TableFault {
                    cause: TableCause::OptionTooLarge,
                    item: 1
                })
        );
        assert!(rt; bank.add(&group(0, 2, &[0, 127])).is_ok());
        assert!(rt; bank.width() == 128 && bank.count() == 2);
    }

    #[test]
    fn numbers_of_causes(rt: HostRuntime) {
        assert_eq!(rt; TableCause::BadWidth.number(), 11);
        assert_eq!(rt; TableCause::TooMany.number(), 12);
        assert_eq!(rt; TableCause::OptionTooLarge.number(), 15);
        assert_eq!(rt; TableCause::GroupBounds.number(), 17);
        assert_eq!(rt; TableCause::OptionTwice.number(), 18);
    }

    #[test]
    fn too_many_groups(rt: HostRuntime) {
        let mut bank = Groups::empty();
        let one = group(0, 1, &[0]);
        assert!(rt;
            bank.open(1, &[one; 65])
                == Err(TableFault {
                    cause: TableCause::TooMany,
                    item: 64
                })
        );
        assert!(rt; bank.count() == 0);
        assert!(rt; bank.open(1, &[one; 64]).is_ok());
        assert!(rt; bank.count() == 64);
        assert!(rt;
            bank.room_for(0)
                == Err(TableFault {
                    cause: TableCause::TooMany,
                    item: 64
                })
        );
        assert!(rt;
            bank.add(&group(0, 1, &[0]))
                == Err(TableFault {
                    cause: TableCause::TooMany,
                    item: 64
                })
        );
        assert!(rt; bank.count() == 64);
    }

    #[test]
    fn too_many_options(rt: HostRuntime) {
        let mut bank = Groups::empty();
        let longest: &[u32] = &[
            0, 1, 2, 3, 4, 5, 6, 7, 8, 9, 10, 11, 12, 13, 14, 15, 16, 17, 18, 19, 20, 21, 22, 23,
            24, 25, 26, 27, 28, 29, 30, 31,
        ];
        let longer: &[u32] = &[0; 33];
        assert!(rt; bank.open(32, &[group(32, 32, longest)]).is_ok());
        assert!(rt; bank.add(&group(0, 0, longest)).is_ok());
        assert!(rt;
            bank.add(&group(0, 1, longer))
                == Err(TableFault {
                    cause: TableCause::TooMany,
                    item: 2
                })
        );
        assert!(rt;
            bank.open(32, &[group(1, 0, &[40]), group(0, 1, longer)])
                == Err(TableFault {
                    cause: TableCause::TooMany,
                    item: 1
                })
        );
        assert!(rt; bank.room_for(32).is_ok());
        assert!(rt;
            bank.room_for(33)
                == Err(TableFault {
                    cause: TableCause::TooMany,
                    item: 2
                })
        );
    }

    #[test]
    fn bounds(rt: HostRuntime) {
        let mut bank = Groups::empty();
        assert!(rt; bank.open(3, &[group(0, 0, &[]), group(1, 1, &[2])]).is_ok());
        assert!(rt;
            bank.add(&group(2, 1, &[0, 1, 2]))
                == Err(TableFault {
                    cause: TableCause::GroupBounds,
                    item: 2
                })
        );
        assert!(rt;
            bank.add(&group(0, 3, &[0, 1]))
                == Err(TableFault {
                    cause: TableCause::GroupBounds,
                    item: 2
                })
        );
        assert!(rt;
            bank.add(&group(0, 1, &[]))
                == Err(TableFault {
                    cause: TableCause::GroupBounds,
                    item: 2
                })
        );
        assert!(rt;
            bank.open(3, &[group(0, 0, &[]), group(0, 4294967295, &[0])])
                == Err(TableFault {
                    cause: TableCause::GroupBounds,
                    item: 1
                })
        );
        assert!(rt; bank.count() == 2);
    }

    #[test]
    fn options_twice(rt: HostRuntime) {
        let mut bank = Groups::empty();
        assert!(rt;
            bank.open(3, &[group(0, 1, &[0, 1]), group(0, 1, &[2, 0, 2])])
                == Err(TableFault {
                    cause: TableCause::OptionTwice,
                    item: 1
                })
        );
        assert!(rt;
            bank.open(3, &[group(0, 1, &[0, 0]), group(2, 1, &[1, 2])])
                == Err(TableFault {
                    cause: TableCause::GroupBounds,
                    item: 1
                })
        );
        assert!(rt;
            bank.open(3, &[group(2, 1, &[1, 2]), group(0, 1, &[3])])
                == Err(TableFault {
                    cause: TableCause::OptionTooLarge,
                    item: 1
                })
        );
        assert!(rt; bank.open(3, &[]).is_ok());
        assert!(rt;
            bank.add(&group(0, 1, &[1, 2, 1]))
                == Err(TableFault {
                    cause: TableCause::OptionTwice,
                    item: 0
                })
        );
    }

    #[test]
    fn marks(rt: HostRuntime) {
        let mut bank = Groups::empty();
        assert!(rt;
            bank.open(
                4,
                &[
                    group(2, 2, &[0, 1, 2]),
                    group(0, 1, &[1, 3]),
                    group(1, 2, &[0, 3]),
                ],
            )
            .is_ok()
        );
        let mut place = [7u8; 5];
        assert!(rt; bank.mark(0, &[0, 2, 2, 2], &mut place) == Ok(Answer::Live));
        assert!(rt; place == [0, 1, 1, 2, 7]);
        assert!(rt; bank.mark(0, &[1, 1, 2, 2], &mut place) == Ok(Answer::Live));
        assert!(rt; place == [1, 1, 0, 2, 7]);
        assert!(rt; bank.mark(1, &[2, 2, 2, 1], &mut place) == Ok(Answer::Live));
        assert!(rt; place == [2, 0, 2, 1, 7]);
        assert!(rt; bank.mark(2, &[2, 2, 2, 2, 9], &mut place) == Ok(Answer::Live));
        assert!(rt; place == [2, 2, 2, 2, 7]);
        let read = bank.reads(1);
        assert!(rt;
            read.contains(1) && read.contains(3) && !read.contains(0) && bank.reads(3).is_empty()
        );
    }

    #[test]
    fn mark_refuses(rt: HostRuntime) {
        let mut bank = Groups::empty();
        assert!(rt; bank.open(2, &[group(1, 1, &[0, 1])]).is_ok());
        let mut place = [7u8; 2];
        assert!(rt; bank.mark(1, &[2, 2], &mut place) == Err(Refusal::NoSuchRule));
        assert!(rt; bank.mark(0, &[2], &mut place) == Err(Refusal::ShortPlace));
        assert!(rt; bank.mark(0, &[2, 2], &mut place[0..1]) == Err(Refusal::ShortPlace));
        assert!(rt; bank.mark(0, &[2, 3], &mut place) == Err(Refusal::BadValue));
        assert!(rt; bank.mark(0, &[1, 1], &mut place) == Ok(Answer::Dead));
        assert!(rt; bank.mark(0, &[0, 0], &mut place) == Ok(Answer::Dead));
        assert!(rt; place == [7, 7]);
    }
}
