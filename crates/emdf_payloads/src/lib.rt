// Payloads one after another. Each function answers what its definition in emdf_format says; a compact payload is read from words.
#![tactic(auto)]

ghost use Rattle.std.specs.Prelude.{◌≡◌, true, ◌+◌, ◌^◌, ◌<◌};
ghost use Rattle.emdf_format.specs.Reading.{trace_of, payload_after};
ghost use Rattle.openjoc_bitio.specs.Bits.{window_at};
ghost use Rattle.emdf_compact.specs.Words.{compact_settings, config_length};
ghost use Rattle.emdf_payloads.specs.Compact.{CompactAt, SizeWord, compact_parts, not_compact, compact_record};
ghost use Rattle.emdf_payloads.specs.Payloads.{payload_answer, skip_of, step_at};

use emdf_format::{EmdfError, EmdfPayloadBitTrace, MAX_SIZE_GROUPS, PayloadRecord};
use openjoc_bitio::{BitCursor, BitOffset};

// The end mark or a compact payload: the word that holds its head, how many bits its head takes, with emdf_compact's mark of a
// group id of two groups, and how many its size and all of it.
#[derive(Clone, Copy)]
pub struct CompactPayload {
    pub word: u64,
    pub head: usize,
    pub size: usize,
    pub length: usize,
}

// A payload after its id, which starts at bit start: its settings, its size, and past its body.
fn payload_after(
    s: &[u8],
    c: BitCursor,
    start: usize,
    id: u64,
) -> Result<(Option<PayloadRecord>, BitCursor), EmdfError>
    ensures { result ≡ payload_answer c.end (payload_after start id s.now c.end c.position) }
{
    let position = c.position;
    let end = c.end;
    // So that no sum of positions is too large.
    if position < 0x2000_0000_0000_0000 {
        let x = openjoc_bitio::window_at(s, position);
        let config = emdf_compact::config_length(x) as usize;
        if config != 64 {
            return after_compact(s, x, config, position, end, start, id);
        }
    }
    after_by_fields(s, BitCursor { position, end }, start, id)
}

// The same where x is the word at the position, with compact settings of so many bits.
fn after_compact(
    s: &[u8],
    x: u64,
    config: usize,
    position: usize,
    end: usize,
    start: usize,
    id: u64,
) -> Result<(Option<PayloadRecord>, BitCursor), EmdfError>
    requires { (position < 2 ^ 61) × (x ≡ window_at s.now position) × (compact_settings x ≡ true) × (config ≡ config_length x) }
    ensures { result ≡ payload_answer end (payload_after start id s.now end position) }
{
    let size = position + config;
    let y = openjoc_bitio::window_at(s, size);
    let length = emdf_compact::size_length(y) as usize;
    if length != 0 {
        let body = size + length;
        let past = body + (emdf_compact::size_value(y) as usize) * 8;
        if past - position <= (BitCursor { position, end }).bits_remaining(s) {
            let config = emdf_compact::compact_config(x);
            let trace = bit_trace(start, position, size, body, past);
            let next = BitCursor {
                position: past,
                end,
            };
            return Ok((Some(PayloadRecord { id, config, trace }), next));
        }
    }
    after_by_fields(s, BitCursor { position, end }, start, id)
}

// The same field by field.
fn after_by_fields(
    s: &[u8],
    c: BitCursor,
    start: usize,
    id: u64,
) -> Result<(Option<PayloadRecord>, BitCursor), EmdfError>
    ensures { result ≡ payload_answer c.end (payload_after start id s.now c.end c.position) }
{
    let (config, c1) = emdf_settings::payload_config(s, c)?;
    let (size, c2) = emdf_fields::variable_field(s, c1, 8, MAX_SIZE_GROUPS)?;
    let (_, c3) = emdf_fields::skip_octets(s, c2, size)?;
    let trace = bit_trace(start, c.position, c1.position, c2.position, c3.position);
    Ok((Some(PayloadRecord { id, config, trace }), c3))
}

// The parts of a payload adjoin: each ends where the next one starts.
pub fn bit_trace(
    id: usize,
    config: usize,
    size: usize,
    body: usize,
    end: usize,
) -> EmdfPayloadBitTrace
    ensures { result ≡ trace_of id config size body end }
{
    EmdfPayloadBitTrace {
        payload_id_start_bit: BitOffset(id),
        payload_id_end_bit: BitOffset(config),
        config_start_bit: BitOffset(config),
        config_end_bit: BitOffset(size),
        payload_size_start_bit: BitOffset(size),
        payload_size_end_bit: BitOffset(body),
        payload_body_start_bit: BitOffset(body),
        payload_body_end_bit: BitOffset(end),
    }
}

// The next payload, or None at the id 0 that ends the list; and the cursor past it.
pub fn next_payload(s: &[u8], c: BitCursor) -> Result<(Option<PayloadRecord>, BitCursor), EmdfError>
    ensures { result ≡ step_at s.now c }
{
    let position = c.position;
    let end = c.end;
    let found = compact_at(s, position, end);
    if found.length == 0 {
        return payload_by_fields(s, BitCursor { position, end });
    }
    let next = BitCursor {
        position: position + found.length,
        end,
    };
    if found.word >> 59 == 0 {
        return Ok((None, next));
    }
    Ok((Some(compact_record(found, position)), next))
}

// The same with the payload's id alone, for a caller who wants no record of it.
pub fn skip_payload(s: &[u8], c: BitCursor) -> Result<(Option<u64>, BitCursor), EmdfError>
    ensures { result ≡ skip_of (step_at s.now c) }
{
    let position = c.position;
    let end = c.end;
    let found = compact_at(s, position, end);
    if found.length == 0 {
        let (payload, next) = payload_by_fields(s, BitCursor { position, end })?;
        return Ok((payload.map(|record| record.id), next));
    }
    let next = BitCursor {
        position: position + found.length,
        end,
    };
    let id = found.word >> 59;
    if id == 0 {
        return Ok((None, next));
    }
    Ok((Some(id), next))
}

// The end mark or a compact payload that stands at a position, all of it before the end; else no bits at all.
pub fn compact_at(s: &[u8], position: usize, end: usize) -> CompactPayload
    ensures { CompactAt s.now end position result }
{
    // So that no sum of positions is too large.
    if 0x2000_0000_0000_0000 <= position {
        return not_compact();
    }
    let found = compact_parts(s, position);
    if (BitCursor { position, end }).bits_remaining(s) < found.length {
        return not_compact();
    }
    found
}

// The same wherever the end is.
fn compact_parts(s: &[u8], position: usize) -> CompactPayload
    requires { position < 2 ^ 61 }
    ensures { result ≡ compact_parts s.now position }
{
    let word = openjoc_bitio::window_at(s, position);
    let head = emdf_compact::head_length(word) as usize;
    if head == 0 {
        return not_compact();
    }
    if word >> 59 == 0 {
        return CompactPayload {
            word,
            head,
            size: 0,
            length: head,
        };
    }
    let y = size_word(s, word, position, head % 128);
    let size = emdf_compact::size_length(y) as usize;
    if size == 0 {
        return not_compact();
    }
    CompactPayload {
        word,
        head,
        size,
        length: head % 128 + size + (emdf_compact::size_value(y) as usize) * 8,
    }
}

// A word that starts with the size after a head of so many bits: the head's own, where it has 18 bits more.
fn size_word(s: &[u8], word: u64, position: usize, head: usize) -> u64
    requires { (position < 2 ^ 61) × (head < 2 ^ 7) × (word ≡ window_at s.now position) }
    ensures { SizeWord s.now (position + head) result }
{
    if head < 40 {
        return word << head;
    }
    openjoc_bitio::window_at(s, position + head)
}

fn not_compact() -> CompactPayload
    ensures { result ≡ not_compact }
{
    CompactPayload {
        word: 0,
        head: 0,
        size: 0,
        length: 0,
    }
}

// What is recorded of a compact payload at a position.
pub fn compact_record(c: CompactPayload, position: usize) -> PayloadRecord
    requires { (c.head < 2 ^ 8) × (c.size < 2 ^ 7) × (position < 2 ^ 61) × (position + c.length < 2 ^ 64) }
    ensures { result ≡ compact_record c position }
{
    let size = position + c.head % 128;
    PayloadRecord {
        id: c.word >> 59,
        config: emdf_compact::compact_config(c.word << 5),
        trace: bit_trace(
            position,
            position + 5,
            size,
            size + c.size,
            position + c.length,
        ),
    }
}

// The next payload as next_payload answers it, field by field.
pub fn payload_by_fields(
    s: &[u8],
    c: BitCursor,
) -> Result<(Option<PayloadRecord>, BitCursor), EmdfError>
    ensures { result ≡ step_at s.now c }
{
    let start = c.position;
    let (id, c1) = emdf_fields::extended_value(s, c, 31, 5)?;
    if id == 0 {
        return Ok((None, c1));
    }
    payload_after(s, c1, start, id)
}
