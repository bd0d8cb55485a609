// A case of reading a carrier, by its line's numbers: length byte*length number word*9, and 27 numbers a payload.
use crate::words;

// Room for 128 payloads.
const TABLE: usize = 28672;

// The original's numbers of a payload; a row has the ordinal behind them, which the original has not.
const NUMBERS: usize = 27;

// Whether the reading is the same; nothing where the line is no case. The rest of the line is number word*9, and the rows.
pub(crate) fn outcome(bytes: &[u8], rest: &[u64]) -> Option<bool> {
    let (head, values) = rest.split_at_checked(10)?;
    if values.len() / NUMBERS != rows(head[0], head[3]) {
        return None;
    }
    let mut table = [0u8; TABLE];
    let mut answer = [0u8; 80];
    let number = emdf_host::emdf_read(bytes, &mut table, &mut answer);
    Some(
        u64::from(number) == head[0]
            && words::same_words(&answer, &head[1..])
            && same_rows(&table, values),
    )
}

fn same_rows(table: &[u8], values: &[u64]) -> bool {
    values.len() / NUMBERS <= table.len() / emdf_rows::ROW_BYTES
        && table
            .chunks_exact(emdf_rows::ROW_BYTES)
            .zip(values.chunks_exact(NUMBERS))
            .all(|(row, numbers)| words::same_words(row, numbers))
}

// A reading that is accepted has a row a payload.
fn rows(number: u64, payloads: u64) -> usize {
    if number == 0 {
        words::index(payloads)
    } else {
        0
    }
}
