// Memory for the rows of the diagrams. It is lent to their table, so that no call has to ask for memory.
ghost use Rattle.std.specs.Prelude.{◌≡◌, length};

use diagrams::row::Row;

// As many rows as a text may have. The caller makes the table over it, since a table cannot leave the function that holds its rows.
pub(crate) fn no_rows() -> [Row; 2048]
    ensures { length result ≡ 2048 }
{
    [Row::default(); 2048]
}
