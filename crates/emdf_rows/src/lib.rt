// Answers and payloads' rows, stored as numbers of 8 bytes into a host's bytes.
#![tactic(auto)]

ghost use Rattle.std.specs.Prelude.{◌≡◌, List, suc, ◌+◌, ◌*◌, ◌≤◌, length, replicate};
ghost use Rattle.std.proofs.lemmas.List.Edits.{sets};
ghost use Rattle.emdf_format.specs.Reading.{Found};
ghost use Rattle.emdf_format.specs.Calls.{unrecorded};
ghost use Rattle.emdf_format.specs.Ordinals.{rows_of};
ghost use Rattle.emdf_payloads.specs.Payloads.{Listed};
ghost use Rattle.emdf_answers.specs.Form.{big_endian, words};
ghost use Rattle.emdf_answers.specs.Bits.{reply_words, BitReplies};
ghost use Rattle.emdf_answers.specs.Fields.{FieldReplies};
ghost use Rattle.emdf_answers.specs.Replies.{two_reply, Replies};
ghost use Rattle.emdf_answers.specs.Carriers.{read_reply, row_words, rows_bytes, move_figures, find_figures};
ghost use Rattle.emdf_answers.specs.Edits.{edited_figures};
ghost use Rattle.emdf_ordinals.specs.Rows.{slots_with};
ghost use Rattle.emdf_rows.specs.Rows.{last_in, Searchable, PutsRow};

use emdf_answers::{BitReply, FieldReply};
use emdf_format::{BodyError, EditError, Figures, FindError, PayloadRecord, RecordsError};
use emdf_refusals::Numbered;
use openjoc_bitio::{BitCursor, BitOffset, ByteCount};

// A payload's row: 28 numbers, its ordinal the last.
pub const ROW_BYTES: usize = 224;

const ORDINAL_AT: usize = 216;

// So few payloads take more time to clear all slots than to search without them.
const FEW_PAYLOADS: usize = 64;

pub fn put_reply(answer: &mut [u8; 48], reply: BitReply) -> u32
    ensures { BitReplies reply result answer.new }
{
    put_answer(answer, reply.number, &reply_words(reply))
}

// The groups stand last.
pub fn put_field(answer: &mut [u8; 56], field: FieldReply) -> u32
    ensures { FieldReplies field result answer.new }
{
    let reply = field.reply;
    put_words(answer, 0, &reply_words(reply));
    put_word(answer, 48, field.groups);
    reply.number
}

fn reply_words(reply: BitReply) -> [u64; 6]
    ensures { result ≡ reply_words reply }
{
    [
        reply.first,
        reply.second,
        reply.cursor.position as u64,
        reply.cursor.end as u64,
        reply.window.position as u64,
        reply.window.end as u64,
    ]
}

#[tactic(auto, unfolding(emdf_answers::specs::Carriers::read_reply))]
pub fn put_refusal(answer: &mut [u8; 80], why: RecordsError) -> u32
    ensures { Replies (read_reply (unrecorded why)) result answer.new }
{
    let f = why.figures();
    put_reading(answer, f.number, emdf_answers::figure_words(f))
}

pub fn put_reading(answer: &mut [u8; 80], number: u32, values: [u64; 10]) -> u32
    ensures { (result ≡ number) × (answer.new ≡ words values) }
{
    put_answer(answer, number, &values)
}

// A row for each of count payloads, the first of which stands at c.
pub fn put_rows(table: &mut [u8], s: &[u8], c: BitCursor, count: usize)
    requires { (count * 224 ≤ length table.old) × ((xs : List Found) × Listed s.now c xs × (length xs ≡ count)) }
    ensures { (xs : List Found) → Listed s.now c xs → length xs ≡ count → table.new ≡ sets table.old 0 (rows_bytes (rows_of xs)) }
{
    if count <= FEW_PAYLOADS {
        put_rows_with(table, &mut [0; 32], s, c, count);
    } else {
        put_rows_with(table, &mut [0; emdf_ordinals::SLOTS], s, c, count);
    }
}

// The same with slots that are all free.
fn put_rows_with(table: &mut [u8], slots: &mut [u64], s: &[u8], c: BitCursor, count: usize)
    requires { (count * 224 ≤ length table.old) × ((xs : List Found) × Listed s.now c xs × (length xs ≡ count)) × (slots.old ≡ replicate (length slots.old) 0) }
    ensures { (xs : List Found) → Listed s.now c xs → length xs ≡ count → table.new ≡ sets table.old 0 (rows_bytes (rows_of xs)) }
{
    let mut at = c;
    for place in 0..count {
        at = put_next(table, slots, place, s, at);
    }
}

// The row of the payload at c, after place rows, and the cursor past it.
fn put_next(table: &mut [u8], slots: &mut [u64], place: usize, s: &[u8], c: BitCursor) -> BitCursor
    requires { (place * 224 + 224 ≤ length table.old) × Searchable table.old slots.old place }
    ensures { PutsRow s.now c table.old slots.old place result table.new slots.new }
{
    let found = emdf_payloads::compact_at(s, c.position, c.end);
    if found.length == 0 {
        return put_found(table, slots, place, s, c);
    }
    let record = emdf_payloads::compact_record(found, c.position);
    let ordinal = next_ordinal(table, slots, place, record.id);
    put_row(table, place * ROW_BYTES, record, ordinal);
    BitCursor {
        position: c.position + found.length,
        ..c
    }
}

// The row of any payload, by its record.
fn put_found(table: &mut [u8], slots: &mut [u64], place: usize, s: &[u8], c: BitCursor) -> BitCursor
    requires { (place * 224 + 224 ≤ length table.old) × Searchable table.old slots.old place }
    ensures { PutsRow s.now c table.old slots.old place result table.new slots.new }
{
    match emdf_payloads::next_payload(s, c) {
        Ok((Some(record), next)) => {
            let ordinal = next_ordinal(table, slots, place, record.id);
            put_row(table, place * ROW_BYTES, record, ordinal);
            next
        }
        // An accepted carrier has a payload here.
        Ok((None, _)) | Err(_) => c,
    }
}

// The ordinal of a payload with this id after place rows, by these; its slot is taken.
fn next_ordinal(table: &[u8], slots: &mut [u64], place: usize, id: u64) -> u64
    requires { (place * 224 + 224 ≤ length table.now) × Searchable table.now slots.old place }
    ensures { (result ≡ suc (last_in table.now slots.old place id)) × (slots.new ≡ slots_with slots.old id place) }
{
    let rows = emdf_ordinals::take_slot(slots, id, place);
    let last = emdf_ordinals::last_ordinal(table, ROW_BYTES, ORDINAL_AT, rows, id);
    last + 1
}

// The id, 18 numbers of settings, 8 of the trace, and the ordinal.
pub fn put_row(table: &mut [u8], at: usize, payload: PayloadRecord, ordinal: u64)
    requires { at + 224 ≤ length table.old }
    ensures { table.new ≡ sets table.old at (words (row_words (record { payload = payload; ordinal = ordinal }))) }
{
    put_word(table, at, payload.id);
    put_words(table, at + 8, &emdf_answers::config_words(payload.config));
    put_words(table, at + 152, &emdf_answers::trace_words(payload.trace));
    put_word(table, at + ORDINAL_AT, ordinal);
}

pub fn put_moved(answer: &mut [u8; 16], moved: Result<(BitOffset, ByteCount), BodyError>) -> u32
    ensures { Replies (two_reply (move_figures moved)) result answer.new }
{
    put_two(answer, emdf_answers::move_figures(moved))
}

pub fn put_place(answer: &mut [u8; 16], found: Result<usize, FindError>) -> u32
    ensures { Replies (two_reply (find_figures found)) result answer.new }
{
    put_two(answer, emdf_answers::find_figures(found))
}

pub fn put_two(answer: &mut [u8; 16], f: Figures) -> u32
    ensures { Replies (two_reply f) result answer.new }
{
    put_answer(answer, f.number, &[f.first, f.second])
}

pub fn put_edited(answer: &mut [u8; 16], edited: Result<ByteCount, EditError>) -> u32
    ensures { Replies (two_reply (edited_figures edited)) result answer.new }
{
    put_two(answer, emdf_answers::edited_figures(edited))
}

// Numbers that fill an answer, and the number that is returned with them.
pub fn put_answer(answer: &mut [u8], number: u32, values: &[u64]) -> u32
    requires { 8 * length values.now ≡ length answer.old }
    ensures { (result ≡ number) × (answer.new ≡ words values.now) }
{
    put_words(answer, 0, values);
    number
}

// Numbers, 8 bytes each, from index at on.
fn put_words(out: &mut [u8], at: usize, values: &[u64])
    requires { at + 8 * length values.now ≤ length out.old }
    ensures { out.new ≡ sets out.old at (words values.now) }
{
    for (i, v) in values.iter().enumerate() {
        put_word(out, at + 8 * i, *v);
    }
}

// v in 8 bytes, the most significant first, from index at on.
fn put_word(out: &mut [u8], at: usize, v: u64)
    requires { at + 8 ≤ length out.old }
    ensures { out.new ≡ sets out.old at (big_endian 8 v) }
{
    out[at..at + 8].copy_from_slice(&v.to_be_bytes());
}
