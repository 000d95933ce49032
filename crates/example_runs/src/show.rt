// Says what a rule of a bank answers, in words a person can read.
use bank::refusal::Answer;
use bank::rule_bank::RuleBank;
use std::fmt;

// One place of a values table, printed in words.
#[derive(Clone, Copy, Drop)]
struct Value(u8);

impl fmt::Display for Value {
    fn fmt<W: fmt::Write>(&self, f: &mut fmt::Formatter<W>) -> fmt::Result {
        f.write_str(match self.0 {
            0 => "left out",
            1 => "taken",
            _ => "open",
        })
    }
}

// One line: what stands for each option.
pub fn show_values(rt: &HostRuntime, title: &str, values: &[u8]) -> anyhow::Result<()> {
    print!(rt; "  {title}")?;
    for (option, value) in values.iter().enumerate() {
        print!(rt; "  option {option} {}", Value(*value))?;
    }
    println!(rt; "")?;
    Ok(())
}

// The values, the answer of the rule, and at live its marks.
pub fn show_rule<B: RuleBank>(
    rt: &HostRuntime,
    title: &str,
    b: &B,
    rule: usize,
    values: &[u8],
) -> anyhow::Result<()> {
    println!(rt; "{title}")?;
    show_values(rt, "values", values)?;
    let mut marks = [2u8; 128];
    let room = b.width().min(128);
    match b.mark(rule, values, &mut marks) {
        Ok(Answer::Dead) => println!(rt; "  dead: no build that fits the values meets it")?,
        Ok(Answer::Live) => {
            println!(rt; "  live")?;
            show_values(rt, "marks ", &marks[..room])?;
        }
        Err(refusal) => println!(rt; "  refused: {}", refusal.number())?,
    }
    Ok(())
}
