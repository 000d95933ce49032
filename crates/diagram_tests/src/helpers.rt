// What the tests share: rows, and a table that is opened for one call.
use bank::refusal::{Answer, Refusal};
use bank::rule_bank::RuleBank;
use bank::table_fault::TableFault;
use diagram_bank::rules::DiagramRules;
use diagram_bank::variants::variants;
use diagram_bank::walk::meets;
use diagrams::row::Row;
use diagrams::table::Diagrams;

// A row by its three numbers. A literal with its fields would be no plainer: it takes five lines for each row of a table.
// diagrams_tests has this function too, since tests share no crate for it.
pub fn row(option: u32, low: u32, high: u32) -> Row {
    Row { option, low, high }
}

// Four rows over three options. Node 2 wants option 2 and node 3 the opposite; node 4 lets option 1 choose between them,
// and node 5 lets option 0 choose between nodes 2 and 4. diagrams_tests has them too.
pub fn four_rows() -> [Row; 4] {
    [row(2, 0, 1), row(2, 1, 0), row(1, 2, 3), row(0, 2, 4)]
}

// The answer of a rule over these rows and roots, and the place for marks after it.
pub fn marked(
    width: usize,
    rows: &[Row],
    roots: &[u32],
    rule: usize,
    values: &[u8],
) -> Result<(Result<Answer, Refusal>, [u8; 4]), TableFault> {
    let mut memory = four_rows();
    let mut table = Diagrams::empty(&mut memory);
    table.open(width, rows, roots)?;
    let mut marks = [9; 4];
    let answer = DiagramRules { table: &table }.mark(rule, values, &mut marks);
    Ok((answer, marks))
}

// The variants of a rule over these rows and one root, and the column after it.
pub fn counted(
    width: usize,
    rows: &[Row],
    root: u32,
    rule: usize,
    values: &[u8],
) -> Result<(Result<u64, Refusal>, [u64; 7]), TableFault> {
    let mut memory = four_rows();
    let mut table = Diagrams::empty(&mut memory);
    table.open(width, rows, &[root])?;
    let mut column = [9; 7];
    let count = variants(&table, rule, values, &mut column);
    Ok((count, column))
}

// Whether a build meets a rule of the four rows with the roots 5 and 1.
pub fn walked(rule: usize, build: &[bool]) -> Result<Result<bool, Refusal>, TableFault> {
    let mut memory = four_rows();
    let mut table = Diagrams::empty(&mut memory);
    table.open(3, &four_rows(), &[5, 1])?;
    Ok(meets(&table, rule, build))
}
