// The bodies of a carrier's payloads: one that starts on a byte stays where it is, another one is moved to a scratch.
#![tactic(auto)]

ghost use Rattle.std.specs.Prelude.{◌≡◌, List, ◌-◌, ◌/◌, ◌≤◌};
ghost use Rattle.std.proofs.Math.ListN.{get_elem?};
ghost use Rattle.emdf_format.specs.Reading.{Found, reading};
ghost use Rattle.emdf_format.specs.Calls.{found_at, MovesBody, choose_body};
ghost use Rattle.emdf_payloads.specs.Payloads.{Listed};
ghost use Rattle.emdf_bodies.specs.Bodies.{body_of, find_body};

use emdf_format::{BodyError, EmdfPayloadBitTrace};
use emdf_payloads::{next_payload, skip_payload};
use openjoc_bitio::{BitCursor, BitOffset, ByteCount};
use openjoc_emdf::open_carrier;

// Moves a body that doesn't start on a byte to the first bytes of scratch, and answers where it is and how long.
pub fn move_body(
    bytes: &[u8],
    place: usize,
    scratch: &mut [u8],
) -> Result<(BitOffset, ByteCount), BodyError>
    ensures { MovesBody bytes.now place scratch.old result scratch.new }
{
    let (start, length) = find_body(bytes, place)?;
    if start.0 % 8 == 0 {
        return Ok((start, length));
    }
    if scratch.len() < length.0 {
        return Err(BodyError::ScratchTooShort { needed: length });
    }
    emdf_writer::copy_octets(scratch, 0, bytes, start.0, length.0);
    Ok((start, length))
}

// The body: a part of the carrier where it starts on a byte, else of the scratch. Empty where the move refuses.
pub fn choose_body<'a>(bytes: &'a [u8], place: usize, scratch: &'a [u8]) -> &'a [u8]
    ensures { result.now ≡ choose_body (found_at (reading bytes.now) place) bytes.now scratch.now }
{
    let Ok((start, length)) = find_body(bytes, place) else {
        return &[];
    };
    let bit = start.0;
    let n = length.0;
    if bit % 8 == 0 {
        let from = bit / 8;
        let to = from + n;
        return &bytes[from..to];
    }
    scratch.get(..n).unwrap_or(&[])
}

// Where the body of the payload at place is.
fn find_body(bytes: &[u8], place: usize) -> Result<(BitOffset, ByteCount), BodyError>
    ensures { result ≡ find_body (reading bytes.now) place }
{
    let (parsed, first) = open_carrier(bytes).map_err(BodyError::Emdf)?;
    let n = parsed.bytes_consumed.0;
    body_from(&bytes[..n], first, place)
}

// The same, where the payloads start at c.
fn body_from(s: &[u8], c: BitCursor, place: usize) -> Result<(BitOffset, ByteCount), BodyError>
    requires { (xs : List Found) × Listed s.now c xs }
    ensures { (xs : List Found) → Listed s.now c xs → result ≡ body_of (get_elem? xs place) }
{
    // No payload of an accepted carrier is refused.
    let mut at = c;
    for _ in 0..place {
        let (skipped, next) = skip_payload(s, at).map_err(BodyError::Emdf)?;
        skipped.ok_or(BodyError::NoSuchPayload)?;
        at = next;
    }
    let (step, _) = next_payload(s, at).map_err(BodyError::Emdf)?;
    let record = step.ok_or(BodyError::NoSuchPayload)?;
    Ok(body_span(record.trace))
}

// A body is whole octets, wherever it starts.
fn body_span(trace: EmdfPayloadBitTrace) -> (BitOffset, ByteCount)
    requires { trace.payload_body_start_bit.0 ≤ trace.payload_body_end_bit.0 }
    ensures { result ≡ (trace.payload_body_start_bit, record { 0 = (trace.payload_body_end_bit.0 - trace.payload_body_start_bit.0) / 8 }) }
{
    let start = trace.payload_body_start_bit;
    let end = trace.payload_body_end_bit;
    (start, ByteCount((end.0 - start.0) / 8))
}
