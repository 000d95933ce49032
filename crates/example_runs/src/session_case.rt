// Sessions over the example table: it is completed together with a clause, then with a group, and asked about a forced option.
use crate::diagram_case::example_rows;
use crate::show::show_values;
use anyhow::anyhow;
use bank::rule_bank::RuleBank;
use clauses::table::Clauses;
use diagram_bank::rules::DiagramRules;
use diagrams::table::Diagrams;
use groups::table::Groups;
use groups::text::GroupText;
use layers::pair::Pair;
use session::completion::Verdict;
use session::forcing::Force;
use session::session::Session;

const BUDGET: u64 = 1000;

// Completes the order without picks, and says the verdict, the build and the steps.
fn show_completion<B: RuleBank + Drop>(rt: &HostRuntime, title: &str, b: B) -> anyhow::Result<()> {
    println!(rt; "{title}")?;
    let width = b.width().min(128);
    let mut session = Session::new(b);
    let mut place = [2u8; 128];
    let completion = session
        .complete(BUDGET, &mut place)
        .map_err(|_| anyhow!("the completion was refused"))?;
    let steps = completion.steps;
    match completion.answer {
        Verdict::Build => {
            println!(rt; "  a build, after {steps} steps")?;
            show_values(rt, "build ", &place[0..width])
        }
        Verdict::NoBuild => Ok(println!(rt; "  nothing can be built, after {steps} steps")?),
        Verdict::Spent => Ok(println!(rt; "  the budget is spent, after {steps} steps")?),
    }
}

// The answer of forced, in words. Not its `Display`: these are this program's words, and another says others.
fn forced_word(answer: Force) -> &'static str {
    match answer {
        Force::Only(false) => "must be left out",
        Force::Only(true) => "must be taken",
        Force::Open => "is open",
        Force::NoBuild => "nothing can be built",
        Force::Spent => "the budget is spent",
    }
}

// With option 2 left out, what becomes of option 0?
fn show_forced<B: RuleBank + Drop>(rt: &HostRuntime, b: B) -> anyhow::Result<()> {
    println!(rt; "the example table, option 2 picked 0")?;
    let mut session = Session::new(b);
    session
        .pick(2, 0)
        .map_err(|_| anyhow!("the pick was refused"))?;
    let forced = session
        .forced(0, BUDGET)
        .map_err(|_| anyhow!("the question was refused"))?;
    let word = forced_word(forced.answer);
    let steps = forced.steps;
    println!(rt; "  option 0: {word}, after {steps} steps")?;
    Ok(())
}

pub fn show_sessions(rt: &HostRuntime) -> anyhow::Result<()> {
    let rows = example_rows();
    let mut memory = rows;
    let mut table = Diagrams::empty(&mut memory);
    let mut clauses = Clauses::empty();
    let mut groups = Groups::empty();
    let all = GroupText {
        lo: 3,
        hi: 3,
        options: &[0, 1, 2],
    };
    if table.open(3, &rows, &[5]).is_err()
        || clauses.open(3, &[&[1, 3]]).is_err()
        || groups.open(3, &[all]).is_err()
    {
        return Err(anyhow!("an example table was refused"));
    }
    let rules = DiagramRules { table: &table };
    show_completion(
        rt,
        "the example table with clause 1 3",
        Pair::new(rules, clauses),
    )?;
    show_completion(
        rt,
        "the example table with group 3 to 3 of options 0, 1, 2",
        Pair::new(rules, groups),
    )?;
    show_forced(rt, rules)
}
