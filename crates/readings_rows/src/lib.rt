// The latest readings table as a lent slice of rows, in few thin functions.
#![tactic(auto)]

ghost use Rattle.std.specs.Prelude.{◌≡◌, set};
ghost use Rattle.readings.specs.Table.{sought};

use readings::{Key, Row, Sought};

// Where a frame goes.
pub fn search(rows: &[Row], k: Key) -> Sought
    ensures { result ≡ sought rows.now k }
{
    let mut s = Sought::Full;
    for (i, row) in rows.iter().enumerate() {
        s = readings::sought_next(s, i, *row, k);
    }
    s
}

// Puts a row at a place; nothing where the place is past the last row.
pub fn put(rows: &mut [Row], at: usize, row: Row)
    ensures { rows.new ≡ set rows.old at row }
{
    if at < rows.len() {
        rows[at] = row;
    }
}
