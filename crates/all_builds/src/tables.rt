// The three kinds of table as they are spelled, before any bank has seen them. Both the bank that is tried and the
// oracle are made from these.
use diagrams::row::Row;

#[derive(Debug, Drop)]
pub struct DiagramTable {
    pub width: u8,
    pub rows: Vec<Row>,
    pub roots: Vec<u32>,
}

#[derive(Debug, Drop)]
pub struct ClauseTable {
    pub width: u8,
    pub clauses: Vec<Vec<u32>>,
}

// At least `lo` and at most `hi` of the options are to be taken.
#[derive(Debug, Drop)]
pub struct Limits {
    pub lo: u32,
    pub hi: u32,
    pub options: Vec<u32>,
}

#[derive(Debug, Drop)]
pub struct GroupTable {
    pub width: u8,
    pub groups: Vec<Limits>,
}
