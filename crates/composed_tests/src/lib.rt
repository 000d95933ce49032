// The bank that a quote will use, put together by hand: a pair of a shifted diagram bank and a pair of clauses and groups.
#![tactic(auto)]

#[cfg(test)]
mod tests {
    use bank::refusal::{Answer, Refusal};
    use bank::rule_bank::RuleBank;
    use clauses::table::Clauses;
    use diagram_bank::rules::DiagramRules;
    use diagrams::row::Row;
    use diagrams::table::Diagrams;
    use groups::table::Groups;
    use groups::text::GroupText;
    use layers::pair::Pair;
    use layers::shift::Shift;
    use session::completion::Verdict;
    use session::session::Session;
    use std::process::Abort;
    use std::test::Fail;

    // The example table: option 0 and option 1 taken and option 2 left out, or option 2 taken and not both of the others.
    // The other tests have it once more, since they share no crate for four lines of data.
    fn rows() -> [Row; 4] {
        [
            Row {
                option: 2,
                low: 0,
                high: 1,
            },
            Row {
                option: 2,
                low: 1,
                high: 0,
            },
            Row {
                option: 1,
                low: 2,
                high: 3,
            },
            Row {
                option: 0,
                low: 2,
                high: 4,
            },
        ]
    }

    // Option 0 is taken.
    fn clauses() -> Clauses {
        let mut table = Clauses::empty();
        let _ = table.open(5, &[&[1]]);
        table
    }

    // Just one of options 1 and 4 is taken.
    fn groups() -> Groups {
        let mut table = Groups::empty();
        let one = GroupText {
            lo: 1,
            hi: 1,
            options: &[1, 4],
        };
        let _ = table.open(5, &[one]);
        table
    }

    // The answer of a rule under options 3 left out, with the marks.
    fn marked<B: RuleBank>(b: &B, rule: usize) -> (Result<Answer, Refusal>, [u8; 5]) {
        let mut marks = [9u8; 5];
        let answer = b.mark(rule, &[2, 2, 2, 0, 2], &mut marks);
        (answer, marks)
    }

    fn check_bank<B: RuleBank>(rt: &impl Abort, b: &B) {
        assert_eq!(rt; b.width(), 5);
        assert_eq!(rt; b.count(), 3);
        assert_eq!(rt; marked(b, 0), (Ok(Answer::Live), [2, 2, 2, 0, 1]));
        assert_eq!(rt; marked(b, 1), (Ok(Answer::Live), [1, 2, 2, 0, 2]));
        assert_eq!(rt; marked(b, 2), (Ok(Answer::Live), [2, 2, 2, 0, 2]));
        assert_eq!(rt; marked(b, 3), (Err(Refusal::NoSuchRule), [9, 9, 9, 9, 9]));
    }

    fn check_order<B: RuleBank + Drop>(rt: &impl Abort, b: B) -> Result<(), Fail> {
        let mut session = Session::new(b);
        let mut place = [9u8; 6];
        let completion = session.complete(1000, &mut place)?;
        assert!(rt; completion.answer == Verdict::Build);
        assert_eq!(rt; place, [1, 0, 0, 0, 1, 9]);
        Ok(())
    }

    #[test]
    fn a_pair_of_a_shift_and_a_pair(rt: HostRuntime) -> Result<(), Fail> {
        let table_rows = rows();
        let mut memory = table_rows;
        let mut table = Diagrams::empty(&mut memory);
        assert!(rt; table.open(3, &table_rows, &[5]).is_ok());
        let rules = DiagramRules { table: &table };
        let b = Pair::new(Shift::new(rules, 2), Pair::new(clauses(), groups()));
        check_bank(&rt, &b);
        check_order(&rt, b)
    }
}
