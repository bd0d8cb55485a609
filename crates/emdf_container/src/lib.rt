// A container: its protection, its end, and all of it after the declared length. Each function answers what its definition in
// emdf_format says.
#![tactic(auto)]

ghost use Rattle.std.specs.Prelude.{◌≡◌, true, ◌+◌, ◌-◌, ◌*◌, ◌^◌, ◌≤◌, ◌<◌, List, length};
ghost use Rattle.emdf_format.specs.Contents.{protection_length};
ghost use Rattle.emdf_format.specs.Reader.{octets};
ghost use Rattle.emdf_format.specs.Reading.{Found, padding, container_end, container};
ghost use Rattle.emdf_format.specs.Calls.{octets_at};
ghost use Rattle.openjoc_bitio.specs.Bits.{bits_value};
ghost use Rattle.emdf_container.specs.Container.{protection_bytes, bytes_answer, value_there, padding_answer, IsEnd, groups_with, container_after, container_answer};

use emdf_format::EmdfError;
use openjoc_bitio::{BitCursor, ByteCount};

// At most 16 bytes of protection as a number of 128 bits, the last byte its lowest, in the two words of a host's answer.
#[derive(Clone, Copy)]
pub struct ProtectionBytes {
    pub length: ByteCount,
    pub high: u64,
    pub low: u64,
}

// Both protections, which are not looked into.
#[derive(Clone, Copy)]
pub struct EmdfProtection {
    pub primary: ProtectionBytes,
    pub secondary: ProtectionBytes,
}

// A container: its key id, how many payloads it has, its protection, and the largest number of groups of a variable field in it.
#[derive(Clone, Copy)]
pub struct EmdfContainer {
    pub key_id: u64,
    pub payloads: usize,
    pub protection: EmdfProtection,
    pub largest_groups: usize,
}

// A protection's length, by its code.
fn protection_length(code: u64) -> usize
    ensures { result ≡ protection_length code }
{
    match code {
        0 => 0,
        1 => 1,
        2 => 4,
        _ => 16,
    }
}

// n octets of a protection, at most 16.
fn protection_bytes(
    s: &[u8],
    c: BitCursor,
    n: usize,
) -> Result<(ProtectionBytes, BitCursor), EmdfError>
    requires { n ≤ 16 }
    ensures { result ≡ bytes_answer c.end (octets n s.now c.end c.position) }
{
    let (_, past) = emdf_fields::skip_octets(s, c, n as u64)?;
    let more = n.saturating_sub(8);
    let last = BitCursor {
        position: c.position + more * 8,
        end: c.end,
    };
    let bytes = ProtectionBytes {
        length: ByteCount(n),
        high: value_at(s, c, more * 8),
        low: value_at(s, last, (n - more) * 8),
    };
    Ok((bytes, past))
}

// The value of n bits that are there; 0 where they are not.
fn value_at(s: &[u8], c: BitCursor, n: usize) -> u64
    requires { n ≤ 64 }
    ensures { result ≡ value_there s.now c n }
{
    c.read_bits(s, n as u8).map_or(0, |(value, _)| value)
}

// To the end of the declared length: at most 7 bits, all zero.
fn check_padding(s: &[u8], c: BitCursor) -> Result<(), EmdfError>
    ensures { result ≡ padding_answer (padding s.now c.end c.position) }
{
    let remaining = c.bits_remaining(s);
    if 7 < remaining {
        return Err(EmdfError::ExcessPadding { bits: remaining });
    }
    if value_at(s, c, remaining) != 0 {
        return Err(EmdfError::NonzeroPadding);
    }
    Ok(())
}

// What follows the payloads: protection, and padding to the end. An end that is accepted is read through words.
fn container_end(
    s: &[u8],
    c: BitCursor,
    key: u64,
    count: usize,
    most: usize,
) -> Result<EmdfContainer, EmdfError>
    ensures { (xs : List Found) → length xs ≡ count → groups_with key xs ≡ most → result ≡ container_answer c.end (container_end key xs s.now c.end c.position) }
{
    let p = c.position;
    let end = c.end;
    let left = BitCursor { position: p, end }.bits_remaining(s);
    let x = openjoc_bitio::window_at(s, p);
    let first = protection_length(x >> 62);
    let second = protection_length((x >> 60) % 4);
    if !is_end(s, p, left, first, second) {
        return end_by_fields(s, BitCursor { position: p, end }, key, count, most);
    }
    let primary = protection_at(s, p + 4, first);
    let secondary = protection_at(s, p + 4 + first * 8, second);
    let protection = EmdfProtection { primary, secondary };
    Ok(EmdfContainer {
        key_id: key,
        payloads: count,
        protection,
        largest_groups: most,
    })
}

// Whether two protections of these lengths, and up to 7 zero bits, are all that is left.
fn is_end(s: &[u8], p: usize, left: usize, first: usize, second: usize) -> bool
    requires { (p + left < 2 ^ 64) × (first ≤ 16) × (second ≤ 16) }
    ensures { result ≡ true → IsEnd s.now p left first second }
{
    let n = 4 + (first + second) * 8;
    if first == 0 || left < n || n + 7 < left {
        return false;
    }
    // At most 7 bits, the top ones of a window.
    (openjoc_bitio::window_at(s, p + n) >> 57) >> (7 - (left - n)) == 0
}

// The n octets of a protection, from bit p on.
fn protection_at(s: &[u8], p: usize, n: usize) -> ProtectionBytes
    requires { ((n ≡ 16 → ⊥) → n ≤ 7) × (p + n * 8 < 2 ^ 64) }
    ensures { result ≡ protection_bytes (octets_at s.now p n) }
{
    let length = ByteCount(n);
    if n == 16 {
        return ProtectionBytes {
            length,
            high: word_at(s, p),
            low: word_at(s, p + 64),
        };
    }
    // At most 7 octets, the top ones of a window; by two shifts, for where there are none.
    ProtectionBytes {
        length,
        high: 0,
        low: (openjoc_bitio::window_at(s, p) >> 8) >> (56 - n * 8),
    }
}

// The 64 bits from bit p on.
fn word_at(s: &[u8], p: usize) -> u64
    requires { p + 32 < 2 ^ 64 }
    ensures { result ≡ bits_value s.now p 64 }
{
    (openjoc_bitio::window_at(s, p) >> 32) * 0x1_0000_0000
        + (openjoc_bitio::window_at(s, p + 32) >> 32)
}

// What follows the payloads, field by field, which tells why it is refused.
fn end_by_fields(
    s: &[u8],
    c: BitCursor,
    key: u64,
    count: usize,
    most: usize,
) -> Result<EmdfContainer, EmdfError>
    ensures { (xs : List Found) → length xs ≡ count → groups_with key xs ≡ most → result ≡ container_answer c.end (container_end key xs s.now c.end c.position) }
{
    let (primary_code, c1) = emdf_fields::read_bits(s, c, 2)?;
    let (secondary_code, c2) = emdf_fields::read_bits(s, c1, 2)?;
    if primary_code == 0 {
        return Err(EmdfError::ReservedPrimaryProtectionLength);
    }
    let (primary, c3) = protection_bytes(s, c2, protection_length(primary_code))?;
    let (secondary, c4) = protection_bytes(s, c3, protection_length(secondary_code))?;
    check_padding(s, c4)?;
    let protection = EmdfProtection { primary, secondary };
    Ok(EmdfContainer {
        key_id: key,
        payloads: count,
        protection,
        largest_groups: most,
    })
}

// A container, to the cursor's end.
pub fn parse_container(s: &[u8], c: BitCursor) -> Result<EmdfContainer, EmdfError>
    ensures { result ≡ container_answer c.end (container s.now c.end c.position) }
{
    let p = c.position;
    let end = c.end;
    // Version 0 in 2 bits, and a key id below the escape in 3.
    let key = openjoc_bitio::window_at(s, p) >> 59;
    if key < 7 && 5 <= (BitCursor { position: p, end }).bits_remaining(s) {
        let c1 = BitCursor {
            position: p + 5,
            end,
        };
        return parse_payloads(s, c1, key);
    }
    container_by_fields(s, BitCursor { position: p, end })
}

// The same field by field: another version, a key id with the escape, or missing bits.
fn container_by_fields(s: &[u8], c: BitCursor) -> Result<EmdfContainer, EmdfError>
    ensures { result ≡ container_answer c.end (container s.now c.end c.position) }
{
    let (version, c1) = emdf_fields::extended_value(s, c, 3, 2)?;
    if version != 0 {
        return Err(EmdfError::UnsupportedVersion { version });
    }
    let (key, c2) = emdf_fields::extended_value(s, c1, 7, 3)?;
    parse_payloads(s, c2, key)
}

// A container after its key id: its payloads, and what follows them.
fn parse_payloads(s: &[u8], c: BitCursor, key: u64) -> Result<EmdfContainer, EmdfError>
    ensures { result ≡ container_answer c.end (container_after key s.now c.end c.position) }
{
    let (count, most, c1) = emdf_payload_list::count_payloads(s, c)?;
    let groups = emdf_measure::extended_groups(3, 7, key);
    container_end(s, c1, key, count, emdf_measure::larger(groups, most))
}
