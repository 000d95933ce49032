// The fields of a line as numbers. Lengths are checked before fields, since the earlier check decides which fault a line has.
// No line has more than 32 fields in a row: the readers of the lines refuse longer lists before they ask for the fields, and a
// longer list is none here either.
ghost use Rattle.std.specs.Prelude.{◌≡◌, ◌*◌, ◌<◌, ◌≤◌, max, length, Ok, Err};
ghost use Rattle.lines.specs.Said.{line_of};
ghost use Rattle.texts.specs.Causes.{lined, listed};
ghost use Rattle.texts.specs.Fields.{fields, with_fields, plain_line, listed_line, listed_rest};

use crate::faults::LineFault;
use arrayvec::ArrayVec;
use fields::COLUMNS;
use fields::read::read_field;
use lines::line::Line;

// The most fields in a row.
const MOST_FIELDS: usize = 32;

// The first `count` fields of the bytes. Inlined, so that the list is made where its reader wants it and not copied there.
#[inline(always)]
fn read_fields(bytes: &[u8], count: usize) -> Result<ArrayVec<u32, 32>, LineFault>
    requires few { count ≤ 32 }
    requires long { 6 * count ≤ length bytes.now }
    ensures { listed result ≡ with_fields (fields count bytes.now) Ok }
{
    let mut numbers = ArrayVec::new();
    for field in bytes.chunks_exact(COLUMNS).take(count) {
        numbers.push(read_field(field).ok_or(LineFault::Field)?);
    }
    Ok(numbers)
}

// The numbers as an array, which they fill.
fn filled<const N: usize>(numbers: &[u32]) -> Result<[u32; N], LineFault>
    requires { length numbers.now ≡ N }
    ensures { result ≡ Ok numbers.now }
{
    numbers.try_into().map_err(|_| LineFault::Length)
}

// The `count` fields after the first `front`, on a line that has no more than these.
pub fn rest_fields(
    line: Line<'_>,
    front: usize,
    count: usize,
) -> Result<ArrayVec<u32, 32>, LineFault>
    ensures value { front ≤ 32 → count ≤ 32 → listed result ≡ listed_rest front count (line_of line.entry) Ok }
    ensures many { 32 < max front count → result ≡ Err LineFault.Length }
{
    if front.max(count) > MOST_FIELDS {
        return Err(LineFault::Length);
    }
    if !line.closed || line.bytes.len() != 1 + COLUMNS * (front + count) {
        return Err(LineFault::Length);
    }
    let start = 1 + COLUMNS * front;
    read_fields(&line.bytes[start..], count)
}

// The first `count` fields of a line that has more, as one with a list does.
pub fn front_fields(line: Line<'_>, count: usize) -> Result<ArrayVec<u32, 32>, LineFault>
    ensures value { count ≤ 32 → listed result ≡ listed_line count (line_of line.entry) Ok }
    ensures many { 32 < count → result ≡ Err LineFault.Length }
{
    if count > MOST_FIELDS || line.bytes.len() < 1 + COLUMNS * count {
        return Err(LineFault::Length);
    }
    read_fields(&line.bytes[1..], count)
}

// The fields of a line that has exactly `N`.
#[tactic(auto, using(crate::proofs::FieldRows::read_count))]
pub fn whole_fields<const N: usize>(line: Line<'_>) -> Result<[u32; N], LineFault>
    ensures value { N ≤ 32 → lined result ≡ plain_line N (line_of line.entry) Ok }
    ensures many { 32 < N → result ≡ Err LineFault.Length }
{
    filled(&rest_fields(line, 0, N)?)
}

// The first `N` fields of a line that has more, likewise.
#[tactic(auto, using(crate::proofs::FieldRows::read_count))]
pub fn first_fields<const N: usize>(line: Line<'_>) -> Result<[u32; N], LineFault>
    ensures value { N ≤ 32 → lined result ≡ listed_line N (line_of line.entry) Ok }
    ensures many { 32 < N → result ≡ Err LineFault.Length }
{
    filled(&front_fields(line, N)?)
}
