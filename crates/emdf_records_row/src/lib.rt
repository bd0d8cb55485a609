// A payload's row in a lent table, with its ordinal by the rows before it.
#![tactic(auto)]

ghost use Rattle.std.specs.Prelude.{◌≡◌, ◌+◌, ◌≤◌, ◌<◌, ◌^◌, length, set};
ghost use Rattle.emdf_records_row.specs.Row.{last_of, row_after};

use emdf_format::{PayloadRecord, PayloadRow};

// Puts a payload's row at a place. So many of the first rows are searched for the last one with its id, from behind.
pub fn put_row(table: &mut [PayloadRow], place: usize, rows: usize, payload: PayloadRecord)
    requires { (rows ≤ place) × (place < length table.old) × (last_of table.old payload.id rows + 1 < 2 ^ 64) }
    ensures { table.new ≡ set table.old place (row_after table.old rows payload) }
{
    let last = table[..rows]
        .iter()
        .rev()
        .find(|row| row.payload.id == payload.id)
        .map_or(0, |row| row.ordinal);
    table[place] = PayloadRow {
        payload,
        ordinal: last + 1,
    };
}
