// Calls of the library that neither a host nor a program makes, exported for tests/differential in the byte forms of
// emdf_host (docs/HOST.md).
#![tactic(auto)]

ghost use Rattle.std.specs.Prelude.{◌≡◌, ◌*◌, ◌≤◌, length, take};
ghost use Rattle.std.proofs.lemmas.List.Edits.{sets};
ghost use Rattle.emdf_format.specs.Syntax.{octet_bits};
ghost use Rattle.emdf_format.specs.Reading.{reading};
ghost use Rattle.emdf_format.specs.Calls.{found_at, choose_body};
ghost use Rattle.emdf_format.specs.Profile.{verdict};
ghost use Rattle.emdf_format.specs.declared.JocValidationProfile.TheVariants.{EtsiStrict};
ghost use Rattle.emdf_writer.specs.Writing.{number_fits_in, run_fits_in, number_put, bit_by_bit};
ghost use Rattle.openjoc_emdf.specs.Answers.{parse_answer};
ghost use Rattle.emdf_answers.specs.Bits.{BitReplies};
ghost use Rattle.emdf_answers.specs.Replies.{Replies};
ghost use Rattle.emdf_answers.specs.Carriers.{read_reply, rows_bytes};
ghost use Rattle.emdf_answers.specs.Verdict.{verdict_reply};
ghost use Rattle.emdf_trials.specs.Trials.{reader_reply, parse_reply, told_reading, blank_row, table_rows, read_rows, records_read, told};

use emdf_answers::BitReply;
use emdf_format::{
    EmdfPayloadBitTrace, EmdfPayloadConfig, PayloadRecord, PayloadRow, RecordsError,
};
use openjoc_bitio::{BitCursor, BitOffset};
use openjoc_emdf::ParsedEmdf;

// A call of a BitReader that stands at a position and has this end: 0 new, 1 bits_remaining, 2 read_bits, 3 read_bit,
// 4 take_bits, any other byte_align.
#[unsafe(no_mangle)]
pub extern "C" fn trial_reader(
    call: u32,
    bytes: &[u8],
    position: usize,
    end: usize,
    argument: usize,
    answer: &mut [u8; 48],
) -> u32
    ensures { BitReplies (reader_reply call bytes.now (record { position = position; end = end }) argument) result answer.new }
{
    let cursor = BitCursor { position, end };
    emdf_rows::put_reply(answer, reader_reply(call, bytes, cursor, argument))
}

#[tactic(auto, unfolding(crate::specs::Trials::reader_reply))]
fn reader_reply(call: u32, bytes: &[u8], cursor: BitCursor, argument: usize) -> BitReply
    ensures { result ≡ reader_reply call bytes.now cursor argument }
{
    match call {
        0 => emdf_answers::accepted_at(reader_calls::new(bytes), 0),
        1 => {
            let remaining = reader_calls::bits_remaining(bytes, cursor);
            emdf_answers::accepted_at(cursor, remaining as u64)
        }
        2 => {
            let width = (argument % 256) as u8;
            let (value, left) = reader_calls::read_bits(bytes, cursor, width);
            emdf_answers::bits_reply(left, value.map(|v| (v, left)))
        }
        3 => {
            let (bit, left) = reader_calls::read_bit(bytes, cursor);
            emdf_answers::bit_reply(left, bit.map(|b| (b, left)))
        }
        4 => {
            let (window, left) = reader_calls::take_bits(bytes, cursor, argument);
            emdf_answers::window_reply(left, window.map(|w| (w, left)))
        }
        _ => {
            let (moved, left) = reader_calls::byte_align(bytes, cursor);
            emdf_answers::align_reply(left, moved.map(|()| left))
        }
    }
}

// parse_emdf_sync, with the answer of emdf_read.
#[unsafe(no_mangle)]
pub extern "C" fn trial_parse(bytes: &[u8], answer: &mut [u8; 80]) -> u32
    ensures { Replies (parse_reply (parse_answer (reading bytes.now))) result answer.new }
{
    let read = openjoc_emdf::parse_emdf_sync(bytes);
    put_read(answer, read.map_err(RecordsError::Emdf))
}

// parse_emdf_sync_with_bit_trace, lent as many rows as the table has, at most 512. All of them are written to the table,
// those of payloads and those that have to be blank still.
#[unsafe(no_mangle)]
pub extern "C" fn trial_trace(bytes: &[u8], table: &mut [u8], answer: &mut [u8; 80]) -> u32
    ensures { Replies (read_reply (records_read bytes.now (length table.old))) result answer.new × (table.new ≡ sets table.old 0 (rows_bytes (read_rows bytes.now (length table.old)))) }
{
    let rows = table_rows(table.len());
    let read = emdf_table::read_table(bytes, blank_row(), rows);
    put_table(table, read.table, rows);
    put_read(answer, read.answer)
}

// A reading's answer in the host's form.
#[tactic(auto, unfolding(crate::specs::Trials::told_reading, emdf_answers::specs::Carriers::read_reply))]
fn put_read(answer: &mut [u8; 80], read: Result<ParsedEmdf, RecordsError>) -> u32
    ensures { Replies (told_reading read) result answer.new }
{
    match read {
        Ok(parsed) => emdf_rows::put_reading(answer, 0, emdf_answers::parsed_words(parsed)),
        Err(why) => emdf_rows::put_refusal(answer, why),
    }
}

#[tactic(auto, unfolding(crate::specs::Trials::table_rows))]
fn table_rows(bytes: usize) -> usize
    ensures { (result ≡ table_rows bytes) × (result ≤ 512) × (result * 224 ≤ bytes) }
{
    (bytes / emdf_rows::ROW_BYTES).min(512)
}

// No payload has it: each number is the largest.
fn blank_row() -> PayloadRow
    ensures { result ≡ blank_row }
{
    let most = Some(u64::MAX);
    let bit = BitOffset(usize::MAX);
    let config = EmdfPayloadConfig {
        sample_offset: most,
        duration: most,
        group_id: most,
        codec_data_present: u64::MAX,
        discard_unknown_payload: u64::MAX,
        payload_frame_aligned: most,
        create_duplicate: most,
        remove_duplicate: most,
        priority: most,
        processing_allowed: most,
    };
    let trace = EmdfPayloadBitTrace {
        payload_id_start_bit: bit,
        payload_id_end_bit: bit,
        config_start_bit: bit,
        config_end_bit: bit,
        payload_size_start_bit: bit,
        payload_size_end_bit: bit,
        payload_body_start_bit: bit,
        payload_body_end_bit: bit,
    };
    let payload = PayloadRecord {
        id: u64::MAX,
        config,
        trace,
    };
    PayloadRow {
        payload,
        ordinal: u64::MAX,
    }
}

// The first rows of a table. It is handed over whole: where a part of it is lent, it stands on the stack once more.
fn put_table(table: &mut [u8], lent: [PayloadRow; 512], rows: usize)
    requires { (rows ≤ 512) × (rows * 224 ≤ length table.old) }
    ensures { table.new ≡ sets table.old 0 (rows_bytes (take rows lent)) }
{
    for (place, row) in lent[..rows].iter().enumerate() {
        emdf_rows::put_row(
            table,
            place * emdf_rows::ROW_BYTES,
            row.payload,
            row.ordinal,
        );
    }
}

// choose_body: how long the chosen part is, and its first bytes, as many as there is room for.
#[unsafe(no_mangle)]
pub extern "C" fn trial_choose_body<'a>(
    bytes: &'a [u8],
    place: usize,
    scratch: &'a [u8],
    chosen: &mut [u8],
) -> usize
    ensures { (result ≡ length (choose_body (found_at (reading bytes.now) place) bytes.now scratch.now)) × (chosen.new ≡ sets chosen.old 0 (take (length chosen.old) (choose_body (found_at (reading bytes.now) place) bytes.now scratch.now))) }
{
    let body = emdf_bodies::choose_body(bytes, place, scratch);
    put_bytes(chosen, body);
    body.len()
}

fn put_bytes(out: &mut [u8], bytes: &[u8])
    ensures { out.new ≡ sets out.old 0 (take (length out.old) bytes.now) }
{
    // One by one: copy_from_slice would be a call of memmove, which the archive asks of no host.
    for (i, byte) in bytes.iter().enumerate() {
        if out.len() <= i {
            return;
        }
        out[i] = *byte;
    }
}

// validate_joc_profile, with the answer of emdf_verdict.
#[unsafe(no_mangle)]
pub extern "C" fn trial_verdict(bytes: &[u8], answer: &mut [u8; 40]) -> u32
    ensures { Replies (verdict_reply (verdict EtsiStrict bytes.now)) result answer.new }
{
    let judged = joc_profile::validate_joc_profile(bytes);
    let number = emdf_answers::verdict_number(judged);
    emdf_rows::put_answer(answer, number, &emdf_answers::verdict_words(judged))
}

// copy_bits: 1 where the run was put, else 0.
#[unsafe(no_mangle)]
pub extern "C" fn trial_copy(
    out: &mut [u8],
    at: usize,
    bytes: &[u8],
    from: usize,
    bits: usize,
) -> u32
    ensures { (result ≡ told (run_fits_in out.old at bytes.now from bits)) × (out.new ≡ bit_by_bit out.old at bytes.now from bits) }
{
    tell(emdf_writer::copy_bits(out, at, bytes, from, bits))
}

// put_number: 1 where the number was put, else 0.
#[unsafe(no_mangle)]
pub extern "C" fn trial_put(out: &mut [u8], at: usize, width: usize, value: u64) -> u32
    ensures { (result ≡ told (number_fits_in out.old at width)) × (octet_bits out.new ≡ number_put out.old at width value) }
{
    tell(emdf_writer::put_number(out, at, width, value))
}

fn tell(fits: bool) -> u32
    ensures { result ≡ told fits }
{
    u32::from(fits)
}
