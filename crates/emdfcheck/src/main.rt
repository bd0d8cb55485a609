// Prints what carrier standard input is: its class and, of a carrier that is read, each payload's id and where its parts
// stand. The lines are the scope's.
#![tactic(auto)]

ghost use Rattle.std.specs.Prelude.{◌+◌, ◌≤◌, ◌≡◌, length, take};
ghost use Rattle.emdf_format.specs.Reading.{reading, refusal};
ghost use Rattle.emdf_format.specs.Refusals.{refusal_of, figures_of};
ghost use Rattle.emdf_format.specs.Calls.{classify};
ghost use Rattle.openjoc_emdf.specs.Answers.{open_answer};
ghost use Rattle.emdfcheck.specs.Output.{record_line, record_lines, class_lines, output};
ghost use Rattle.emdf_text.specs.Counts.{IsPrefixLen};
ghost use Rattle.emdf_text.specs.Lines.{Printed};
ghost use Rattle.emdfcheck.specs.Parts.{is_non_emdf, records_in, Printable};

use emdf_format::{EmdfError, PayloadRecord};
use emdf_refusals::Numbered;
use openjoc_bitio::BitCursor;
use openjoc_emdf::{CarrierClassification, ParsedEmdf};
use std::env::FillError;
use std::rt::Env;

// The longest input, in bytes.
const MOST_BYTES: usize = 65536;

// The most payloads that are listed.
const MOST_PAYLOADS: usize = 512;

fn main(rt: HostRuntime) {
    // The name of a file must not pass for the file.
    if has_argument(&rt) {
        // Where standard error takes no line, nothing is left to do.
        let _ = eprintln!(rt; "usage: emdfcheck <FILE");
        return;
    }
    let mut input = input_space();
    match emdf_text::read_full(&mut rt.stdin(), &mut input) {
        Ok(n) => print_output(&rt, &input[..n]),
        Err(why) => emdf_text::fail(&rt, "standard input", why),
    }
}

// The argument after the program's name, of which no byte is read: an empty one counts too.
fn has_argument(env: &impl Env) -> bool {
    !matches!(env.arg(1, &mut []), Err(FillError::NotPresent))
}

fn print_output(rt: &(impl Print + Eprint), bytes: &[u8]) {
    let mut out = output_space();
    let length = put_output(bytes, &mut out);
    if let Err(why) = rt.write_all(&out[..length]) {
        emdf_text::fail(rt, "standard output", why);
    }
}

// One byte more than the longest input has.
fn input_space() -> [u8; 65537]
    ensures { 65537 ≡ length result }
{
    [0; 65537]
}

// Room for 512 lines of at most 126 bytes, and one before them.
fn output_space() -> [u8; 65536]
    ensures { 65536 ≡ length result }
{
    [0; 65536]
}

// All that is printed, at the start of out.
fn put_output(bytes: &[u8], out: &mut [u8]) -> usize
    requires { 65536 ≤ length out.old }
    ensures out_after { take result out.new ≡ output bytes.now }
    ensures prefix_len { IsPrefixLen result out.new }
{
    if MOST_BYTES < bytes.len() {
        return emdf_text::put_line(out, 0, b"toolong", &[]);
    }
    match openjoc_emdf::open_carrier(bytes) {
        Ok((parsed, first)) => put_opened(bytes, parsed, first, out),
        Err(why) => put_refused(bytes, why, out),
    }
}

// What isn't read is no carrier, or one that is malformed.
fn put_refused(bytes: &[u8], why: EmdfError, out: &mut [u8]) -> usize
    requires { (reading bytes.now ≡ refusal why) × (65536 ≤ length out.old) }
    ensures { Printed out.old 0 (class_lines (classify bytes.now)) out.new result }
{
    if is_non_emdf(openjoc_emdf::classify_emdf_carrier(bytes)) {
        return emdf_text::put_line(out, 0, b"nonemdf", &[]);
    }
    emdf_text::put_line(out, 0, b"malformed", &[error_number(why)])
}

fn is_non_emdf(class: CarrierClassification) -> bool
    ensures { result ≡ is_non_emdf class }
{
    matches!(class, CarrierClassification::NonEmdf)
}

// A carrier that is read, and what follows it.
fn put_opened(bytes: &[u8], parsed: ParsedEmdf, first: BitCursor, out: &mut [u8]) -> usize
    requires { (open_answer bytes.now (reading bytes.now) ≡ Ok (parsed, first)) × (65536 ≤ length out.old) }
    ensures { Printed out.old 0 (class_lines (classify bytes.now)) out.new result }
{
    let n = parsed.bytes_consumed.0;
    let length = bytes.len();
    if n != length {
        return emdf_text::put_line(out, 0, b"trailing", &[n as u64, length as u64]);
    }
    let count = parsed.container.payloads;
    if MOST_PAYLOADS < count {
        return emdf_text::put_line(out, 0, b"table", &[13, count as u64]);
    }
    let key = parsed.container.key_id;
    let end = emdf_text::put_line(out, 0, b"parsed", &[n as u64, key, count as u64]);
    put_records(bytes, first, out, end)
}

// A line a payload, from the cursor at the first of them.
fn put_records(bytes: &[u8], first: BitCursor, out: &mut [u8], start: usize) -> usize
    requires { Printable bytes.now first start (length out.old) }
    ensures { Printed out.old start (record_lines (records_in (reading bytes.now))) out.new result }
{
    let mut at = first;
    let mut end = start;
    // The end mark ends it. No refusal does: the carrier is read.
    while let Ok((Some(payload), next)) = emdf_payloads::next_payload(bytes, at) {
        end = put_record(out, end, payload);
        at = next;
    }
    end
}

// A payload's id, and where its parts start and its body ends: six numbers of at most 20 digits.
fn put_record(out: &mut [u8], at: usize, payload: PayloadRecord) -> usize
    requires { at + 126 ≤ length out.old }
    ensures printed { Printed out.old at (record_line payload) out.new result }
    ensures upper_bound { result ≤ at + 126 }
{
    let end = emdf_text::put_decimal(out, at, payload.id);
    let trace = payload.trace;
    let offsets = [
        trace.payload_id_start_bit.0 as u64,
        trace.config_start_bit.0 as u64,
        trace.payload_size_start_bit.0 as u64,
        trace.payload_body_start_bit.0 as u64,
        trace.payload_body_end_bit.0 as u64,
    ];
    emdf_text::put_line(out, end, b"", &offsets)
}

fn error_number(why: EmdfError) -> u64
    ensures { result ≡ (figures_of (refusal_of why)).number }
{
    u64::from(why.figures().number)
}
