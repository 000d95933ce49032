// Rows and values tables by number, so that all of them can be counted through.
use diagrams::row::Row;

// The row number `code` of those that may stand at place `at`: its option, then its low and its high arrow.
pub fn row_of(at: u32, code: u32) -> Row {
    let nodes = at.min(2) + 2;
    let arrows = code / 3;
    Row {
        option: code % 3,
        low: arrows % nodes,
        high: (arrows / nodes) % nodes,
    }
}

// The values table number `code` of the 27 over three options.
pub fn values_of(code: u8) -> [u8; 3] {
    [code % 3, (code / 3) % 3, (code / 9) % 3]
}
