// The list of payloads: how many there are, and the largest number of groups in them.
#![tactic(auto)]

ghost use Rattle.std.specs.Prelude.{◌≡◌, ◌-◌, ◌^◌, ◌<◌};
ghost use Rattle.openjoc_bitio.specs.Cursor.{bits_remaining};
ghost use Rattle.emdf_format.specs.Reading.{payloads};
ghost use Rattle.emdf_payloads.specs.Compact.{compact_groups};
ghost use Rattle.emdf_payloads.specs.Payloads.{step_at, record_groups};
ghost use Rattle.emdf_payload_list.specs.List.{list_step, list_answer};

use emdf_format::{EmdfError, PayloadRecord};
use openjoc_bitio::BitCursor;

// The largest number of groups in a compact payload: its size's, or its settings', which are one, and one more where the head
// is marked.
fn compact_groups(head: usize, size: usize) -> usize
    requires { head < 2 ^ 8 }
    ensures { result ≡ compact_groups head size }
{
    if size == 18 {
        return 2;
    }
    1 + head / 128
}

// The largest number of groups in a payload.
fn record_groups(payload: PayloadRecord) -> usize
    ensures { result ≡ record_groups payload }
{
    let id = emdf_measure::extended_groups(5, 31, payload.id);
    let settings = emdf_measure::larger(
        emdf_measure::optional_groups(11, payload.config.duration),
        emdf_measure::optional_groups(2, payload.config.group_id),
    );
    let start = payload.trace.payload_size_start_bit;
    let end = payload.trace.payload_size_end_bit;
    // A group of the size takes 9 bits.
    emdf_measure::larger(
        emdf_measure::larger(id, settings),
        end.0.saturating_sub(start.0) / 9,
    )
}

// Past the next payload, with the larger of a number of groups and its own.
fn pass_payload(
    s: &[u8],
    c: BitCursor,
    most: usize,
) -> Result<(Option<usize>, BitCursor), EmdfError>
    ensures { result ≡ list_step most (step_at s.now c) }
{
    let position = c.position;
    let end = c.end;
    let found = emdf_payloads::compact_at(s, position, end);
    if found.length == 0 {
        let (payload, next) = emdf_payloads::payload_by_fields(s, BitCursor { position, end })?;
        let passed = payload.map(|record| emdf_measure::larger(most, record_groups(record)));
        return Ok((passed, next));
    }
    let next = BitCursor {
        position: position + found.length,
        end,
    };
    if found.word >> 59 == 0 {
        return Ok((None, next));
    }
    let groups = compact_groups(found.head, found.size);
    Ok((Some(emdf_measure::larger(most, groups)), next))
}

// Reads all payloads, to the end of the list: how many they are, and the largest number of groups in one.
pub fn count_payloads(s: &[u8], c: BitCursor) -> Result<(usize, usize, BitCursor), EmdfError>
    ensures { result ≡ list_answer c.end (payloads (bits_remaining s.now c) s.now c.end c.position) }
{
    let mut count: usize = 0;
    let mut groups: usize = 0;
    let mut at = c;
    loop {
        let (passed, next) = pass_payload(s, at, groups)?;
        let Some(most) = passed else {
            return Ok((count, groups, next));
        };
        count += 1;
        groups = most;
        at = next;
    }
}
