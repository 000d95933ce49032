// Reading a field: column by column from the left.
ghost use Rattle.std.specs.Prelude.{◌≡◌, true};
ghost use Rattle.fields.specs.Reading.{after as after_of, field_value, FieldLaw};
ghost use Rattle.fields.specs.Bounds.{seen_small};

use crate::COLUMNS;

// The number that the columns so far hold; none where they are only spaces.
type Seen = Option<u32>;

// What has been seen one column later, where the columns can still begin a field.
fn after(seen: Seen, byte: u8) -> Option<Seen>
    requires { seen_small 100000000 seen ≡ true }
    ensures { result ≡ after_of seen byte }
{
    match seen {
        None if byte == b' ' => Some(None),
        None if byte.is_ascii_digit() => Some(Some((byte - b'0') as u32)),
        Some(n) if byte.is_ascii_digit() && n > 0 => Some(Some(10 * n + (byte - b'0') as u32)),
        _ => None,
    }
}

// The number that the bytes hold, if they are a field.
pub fn read_field(bytes: &[u8]) -> Option<u32>
    ensures value { result ≡ field_value bytes.now }
    ensures law { FieldLaw }
{
    if bytes.len() != COLUMNS {
        return None;
    }
    let mut seen = None;
    for byte in bytes {
        seen = after(seen, *byte)?;
    }
    seen
}
