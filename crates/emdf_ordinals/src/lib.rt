// Which of the payloads of its id a payload is: by the rows before its own, and in a carrier.
#![tactic(auto)]

ghost use Rattle.std.specs.Prelude.{◌≡◌, List, ◌+◌, ◌*◌, ◌≤◌, ◌<◌, ◌^◌, length};
ghost use Rattle.emdf_format.specs.Reading.{Found, reading};
ghost use Rattle.emdf_format.specs.Ordinals.{rows_of, find_in, find_payload};
ghost use Rattle.emdf_payloads.specs.Payloads.{Listed};
ghost use Rattle.emdf_ordinals.specs.Rows.{searched, slots_with, last_ordinal, column_at, is_wanted};

use emdf_format::FindError;
use openjoc_bitio::BitCursor;

// How many slots ids have, each that of its remainder.
pub const SLOTS: usize = 512;

// How many of the rows before this place may have its id: those up to the last one with the id's slot, which is then this one.
pub fn take_slot(slots: &mut [u64], id: u64, place: usize) -> usize
    requires { place + 1 < 2 ^ 64 }
    ensures { (result ≡ searched slots.old id place) × (slots.new ≡ slots_with slots.old id place) }
{
    let slot = (id % SLOTS as u64) as usize;
    if slots.len() <= slot {
        return place;
    }
    let rows = slots[slot] as usize;
    slots[slot] = place as u64 + 1;
    rows
}

// The ordinal of the last of so many rows with an id, 0 where none has it. A row has width bytes: its id at its start, its
// ordinal at offset.
pub fn last_ordinal(table: &[u8], width: usize, offset: usize, rows: usize, id: u64) -> u64
    requires { (8 ≤ width) × (offset + 8 ≤ width) × (rows * width ≤ length table.now) }
    ensures { result ≡ last_ordinal (column_at table.now width 0) (column_at table.now width offset) id rows }
{
    for row in (0..rows).rev() {
        let at = row * width;
        if openjoc_bitio::octets_at(table, at) == id {
            return openjoc_bitio::octets_at(table, at + offset);
        }
    }
    0
}

// The place of the payload with an id and an ordinal.
pub fn find_payload(bytes: &[u8], id: u64, ordinal: u64) -> Result<usize, FindError>
    ensures { result ≡ find_payload id ordinal (reading bytes.now) }
{
    let (parsed, first) = openjoc_emdf::open_carrier(bytes).map_err(FindError::Emdf)?;
    let n = parsed.bytes_consumed.0;
    find_from(&bytes[..n], first, id, ordinal)
}

// The same, where the payloads start at c.
fn find_from(s: &[u8], c: BitCursor, id: u64, ordinal: u64) -> Result<usize, FindError>
    requires { (xs : List Found) × Listed s.now c xs }
    ensures { (xs : List Found) → Listed s.now c xs → result ≡ find_in id ordinal 0 (rows_of xs) }
{
    let mut at = c;
    let mut place: usize = 0;
    let mut seen: u64 = 0;
    // The walk ends at the list's end mark and at no known place, so places are counted along.
    loop {
        // No payload of an accepted carrier is refused.
        let (step, next) = emdf_payloads::skip_payload(s, at).map_err(FindError::Emdf)?;
        let found = step.ok_or(FindError::NoSuchOrdinal)?;
        if is_wanted(found, id, ordinal, seen) {
            return Ok(place);
        }
        if found == id {
            seen += 1;
        }
        place += 1;
        at = next;
    }
}

// Whether a payload has the id, and is the one after those seen with it.
fn is_wanted(found: u64, id: u64, ordinal: u64, seen: u64) -> bool
    requires { seen + 1 < 2 ^ 64 }
    ensures { result ≡ is_wanted found id ordinal seen }
{
    found == id && seen + 1 == ordinal
}
