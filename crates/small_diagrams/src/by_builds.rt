// What a rule says of a values table, by trying all builds of three options.
use bank::refusal::Answer;
use bank::rule_bank::RuleBank;
use builds::fits;
use diagram_bank::rules::DiagramRules;
use diagram_bank::walk::meets;

fn build_of(code: u8) -> [bool; 3] {
    [code % 2 == 1, (code / 2) % 2 == 1, (code / 4) % 2 == 1]
}

// The marks of the builds seen before, if any, and of one build more: an option at which they differ is open.
fn joined(before: Option<[u8; 3]>, build: [bool; 3]) -> [u8; 3] {
    let values = build.map(u8::from);
    match before {
        None => values,
        Some(mut marks) => {
            for (mark, value) in marks.iter_mut().zip(values) {
                if *mark != value {
                    *mark = 2;
                }
            }
            marks
        }
    }
}

// The marks that all fitting builds that meet the rule leave; none where there is no such build.
fn marks_by_builds(rules: &DiagramRules<'_, '_>, rule: usize, values: &[u8; 3]) -> Option<[u8; 3]> {
    let mut marks = None;
    for code in 0..8 {
        let build = build_of(code);
        if fits(values, &build) && matches!(meets(rules.table, rule, &build), Ok(true)) {
            marks = Some(joined(marks, build));
        }
    }
    marks
}

// Whether the bank's answer is the one that trying all builds gives.
pub fn agrees(rules: &DiagramRules<'_, '_>, rule: usize, values: &[u8; 3]) -> bool {
    let mut marks = [9; 3];
    let found = match rules.mark(rule, values, &mut marks) {
        Ok(Answer::Live) => Some(marks),
        Ok(Answer::Dead) => None,
        Err(_) => return false,
    };
    found == marks_by_builds(rules, rule, values)
}
