// What the tests share: a short way to write rows, and what an untouched bank is.
use diagrams::row::Row;
use diagrams::table::Diagrams;

// A row by its three numbers. A literal with its fields would be no plainer: it takes five lines for each row of a table.
// diagram_tests has this function too, since tests share no crate for it.
pub fn row(option: u32, low: u32, high: u32) -> Row {
    Row { option, low, high }
}

// Whether the bank is as `Diagrams::empty` makes it.
pub fn untouched(bank: &Diagrams<'_>) -> bool {
    bank.width == 1 && bank.used == 0 && bank.roots.is_empty()
}

// Four rows over three options. Node 2 wants option 2 and node 3 the opposite; node 4 lets option 1 choose between them,
// and node 5 lets option 0 choose between nodes 2 and 4. diagram_tests has them too.
pub fn four_rows() -> [Row; 4] {
    [row(2, 0, 1), row(2, 1, 0), row(1, 2, 3), row(0, 2, 4)]
}
