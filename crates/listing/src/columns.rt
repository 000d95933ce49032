// Bytes and fields at a place of the listing.
// The listing and the place stay two parameters: a writer that borrows the listing would make no call plainer, and each contract longer.
ghost use Rattle.std.specs.Prelude.{◌≡◌, ◌+◌, ◌<◌, ◌≤◌, [], ◌∷◌, length};
ghost use Rattle.fields.specs.Field.{field_of};
ghost use Rattle.listing.specs.Places.{put_at};
ghost use Rattle.listing.specs.Listing.{option_line};

use fields::COLUMNS;
use fields::write::write_field;

#[tactic(auto, using(crate::proofs::Puts::put_one))]
pub(crate) fn put_byte(listing: &mut [u8], at: usize, byte: u8)
    requires room { at < length listing.old }
    ensures { listing.new ≡ put_at at (byte ∷ []) listing.old }
{
    listing[at] = byte;
}

pub(crate) fn put_field(listing: &mut [u8], at: usize, number: u32)
    requires room { at + 6 ≤ length listing.old }
    requires small { number < 1000000 }
    ensures { listing.new ≡ put_at at (field_of number) listing.old }
{
    let end = at + COLUMNS;
    // six bytes, and six digits at most
    write_field(number, &mut listing[at..end]).unwrap();
}

// A letter and two fields, and the LF.
pub(crate) fn put_option(listing: &mut [u8], at: usize, option: u32, value: u32)
    requires room { at + 14 ≤ length listing.old }
    requires small { (option < 1000000) × (value < 1000000) }
    ensures { listing.new ≡ put_at at (option_line option value) listing.old }
{
    put_byte(listing, at, b'O');
    put_field(listing, at + 1, option);
    put_field(listing, at + 7, value);
    put_byte(listing, at + 13, b'\n');
}
