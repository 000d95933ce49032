// Writing a field: each column by its distance from the right.
ghost use Rattle.std.specs.Prelude.{◌≡◌, ◌<◌, length, MatchResult};
ghost use Rattle.fields.specs.Field.{column as column_of, field_of};
ghost use Rattle.fields.specs.Writing.{field_asked};

use crate::no_field::NoField;
use crate::{COLUMNS, SEVEN_DIGITS};

// What stands `j` columns from the right: a digit, or a space left of the number.
#[tactic(auto, using(crate::proofs::Powers::ten_pos))]
fn column(number: u32, j: u32) -> u8
    requires { j < 6 }
    ensures { result ≡ column_of number j }
{
    let unit = 10u32.pow(j);
    if number < unit && j > 0 {
        return b' ';
    }
    b'0' + (number / unit % 10) as u8
}

// Writes the field of a number into a place of six bytes. Nothing is written where the number has no field or the place another length.
#[tactic(auto, using(crate::proofs::Columns::field_from))]
pub fn write_field(number: u32, place: &mut [u8]) -> Result<(), NoField>
    ensures value { result ≡ field_asked number (length place.old) }
    ensures after { MatchResult result (λ _. place.new ≡ field_of number) (λ _. place.new ≡ place.old) }
{
    if number >= SEVEN_DIGITS {
        return Err(NoField::SevenDigits);
    }
    if place.len() != COLUMNS {
        return Err(NoField::OtherLength);
    }
    for (i, byte) in place.iter_mut().enumerate() {
        *byte = column(number, (COLUMNS - 1 - i) as u32);
    }
    Ok(())
}
