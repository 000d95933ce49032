// The listing's lines. Each call writes them in front and says how many bytes that were; none, and nothing written, where they have no room.
ghost use Rattle.std.specs.Prelude.{◌≡◌, [], ◌∷◌, length, nat_le};
ghost use Rattle.texts.specs.Causes.{fault_of};
ghost use Rattle.listing.specs.Listing.{value_lines, none_line, spent_line, fault_line, build_fits, fault_fits, written, written_count, BuildLaw};

use crate::columns::{put_byte, put_field, put_option};
use fields::SEVEN_DIGITS;
use texts::faults::TextFault;

// The lengths of an option's line and of a fault's.
const OPTION_LINE: usize = 14;

const FAULT_LINE: usize = 26;

// O: one line for each value, with its option.
pub fn write_build(listing: &mut [u8], values: &[u8]) -> Option<usize>
    ensures count { result ≡ written_count (build_fits values.now listing.old) (value_lines 0 values.now) }
    ensures listing { listing.new ≡ written (build_fits values.now listing.old) (value_lines 0 values.now) listing.old }
    ensures law { BuildLaw }
{
    let count = values.len();
    if count > 128 || listing.len() < OPTION_LINE * count {
        return None;
    }
    for (option, value) in values.iter().enumerate() {
        put_option(listing, OPTION_LINE * option, option as u32, *value as u32);
    }
    Some(OPTION_LINE * count)
}

// A letter and its LF.
fn write_letter(listing: &mut [u8], letter: u8) -> Option<usize>
    ensures count { result ≡ written_count (nat_le 2 (length listing.old)) (letter ∷ 10 ∷ []) }
    ensures listing { listing.new ≡ written (nat_le 2 (length listing.old)) (letter ∷ 10 ∷ []) listing.old }
{
    if listing.len() < 2 {
        return None;
    }
    put_byte(listing, 0, letter);
    put_byte(listing, 1, b'\n');
    Some(2)
}

// Z: nothing can be built. This call and the next stay two, since one with a kind to choose the letter would be no plainer: each is one call of what they share.
pub fn write_none(listing: &mut [u8]) -> Option<usize>
    ensures count { result ≡ written_count (nat_le 2 (length listing.old)) none_line }
    ensures listing { listing.new ≡ written (nat_le 2 (length listing.old)) none_line listing.old }
{
    write_letter(listing, b'Z')
}

// B: the budget ran out first.
pub fn write_spent(listing: &mut [u8]) -> Option<usize>
    ensures count { result ≡ written_count (nat_le 2 (length listing.old)) spent_line }
    ensures listing { listing.new ≡ written (nat_le 2 (length listing.old)) spent_line listing.old }
{
    write_letter(listing, b'B')
}

// F: where the fault is, and its number.
pub fn write_fault(listing: &mut [u8], fault: TextFault) -> Option<usize>
    ensures count { result ≡ written_count (fault_fits (fault_of fault) listing.old) (fault_line (fault_of fault)) }
    ensures listing { listing.new ≡ written (fault_fits (fault_of fault) listing.old) (fault_line (fault_of fault)) listing.old }
{
    let line = fault.line_number();
    if line >= SEVEN_DIGITS as usize || listing.len() < FAULT_LINE {
        return None;
    }
    put_byte(listing, 0, b'F');
    put_field(listing, 1, fault.text_number() as u32);
    put_field(listing, 7, fault.cause.layer() as u32);
    put_field(listing, 13, line as u32);
    put_field(listing, 19, fault.cause.number() as u32);
    put_byte(listing, 25, b'\n');
    Some(FAULT_LINE)
}
