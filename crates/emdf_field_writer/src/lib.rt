// The fields of a carrier, put one after another into a caller's bytes.
#![tactic(auto)]

ghost use Rattle.std.specs.Prelude.{◌+◌, ◌*◌, ◌^◌, ◌<◌, ◌≤◌, length};
ghost use Rattle.openjoc_bitio.specs.Bits.{number_bits};
ghost use Rattle.emdf_format.specs.Syntax.{◌⨟◌, variable_field, extended_field, octet_bits, flagged_field, present_field};
ghost use Rattle.emdf_format.specs.Contents.{Payload, sample_offset_bits, codec_data_bits, config_bits, payload_bits, protection_bits};
ghost use Rattle.emdf_writer.specs.Writing.{bit_run};
ghost use Rattle.emdf_field_writer.specs.Fields.{Room, Put, group, variable_groups, timing_bits, controls_bits, sync_bits, header_bits};

use emdf_format::EmdfPayloadConfig;
use openjoc_bitio::{BitOffset, ByteCount};

// The width low bits of v; the position past them, as with the others.
pub fn put_field(out: &mut [u8], at: BitOffset, width: usize, v: u64) -> BitOffset
    requires { (width ≤ 64) × Room out.old at.0 (number_bits width v) }
    ensures { Put out.old at.0 (number_bits width v) out.new result.0 }
{
    emdf_writer::put_number(out, at.0, width, v);
    BitOffset(at.0 + width)
}

// So many zero bits.
pub fn put_zeros(out: &mut [u8], at: BitOffset, n: usize) -> BitOffset
    requires { Room out.old at.0 (number_bits n 0) }
    ensures { Put out.old at.0 (number_bits n 0) out.new result.0 }
{
    let mut next = at;
    for _ in 0..n / 64 {
        next = put_field(out, next, 64, 0);
    }
    put_field(out, next, n % 64, 0)
}

// A group: the width low bits of v and the more bit.
fn put_group(out: &mut [u8], at: BitOffset, width: usize, v: u64, more: u64) -> BitOffset
    requires { (width < 64) × (more < 2) × Room out.old at.0 (group width v more) }
    ensures { Put out.old at.0 (group width v more) out.new result.0 }
{
    let low = v % (1 << width);
    put_field(out, at, width + 1, low * 2 + more)
}

// The groups of v, the last with this more bit: those of the shorter value come first.
fn put_variable(out: &mut [u8], at: BitOffset, width: usize, v: u64, more: u64) -> BitOffset
    requires { (0 < width) × (width < 64) × (more < 2) × Room out.old at.0 (variable_groups width v more) }
    ensures { Put out.old at.0 (variable_groups width v more) out.new result.0 }
{
    let above = v >> width;
    if above == 0 {
        return put_group(out, at, width, v, more);
    }
    let next = put_variable(out, at, width, above - 1, 1);
    put_group(out, next, width, v, more)
}

// A field with an escape.
pub fn put_extended(out: &mut [u8], at: BitOffset, width: usize, v: u64) -> BitOffset
    requires { (0 < width) × (width < 64) × Room out.old at.0 (extended_field width v) }
    ensures { Put out.old at.0 (extended_field width v) out.new result.0 }
{
    let escape = (1 << width) - 1;
    if v < escape {
        return put_field(out, at, width, v);
    }
    let next = put_field(out, at, width, escape);
    put_variable(out, next, width, v - escape, 0)
}

// All octets of s.
fn put_octets(out: &mut [u8], at: BitOffset, s: &[u8]) -> BitOffset
    requires { Room out.old at.0 (octet_bits s.now) }
    ensures { Put out.old at.0 (octet_bits s.now) out.new result.0 }
{
    put_run(out, at, s, BitOffset(0), s.len() * 8)
}

// The sample offset: a flag and, where it is there, 11 bits and a reserved one.
fn put_sample_offset(out: &mut [u8], at: BitOffset, o: Option<u64>) -> BitOffset
    requires { Room out.old at.0 (flagged_field sample_offset_bits o) }
    ensures { Put out.old at.0 (flagged_field sample_offset_bits o) out.new result.0 }
{
    match o {
        None => put_field(out, at, 1, 0),
        Some(v) => {
            let flag = put_field(out, at, 1, 1);
            let value = put_field(out, flag, 11, v);
            put_field(out, value, 1, 0)
        }
    }
}

// A flag and, where the setting is there, its variable field.
fn put_flagged(out: &mut [u8], at: BitOffset, width: usize, o: Option<u64>) -> BitOffset
    requires { (0 < width) × (width < 64) × Room out.old at.0 (flagged_field (variable_field width) o) }
    ensures { Put out.old at.0 (flagged_field (variable_field width) o) out.new result.0 }
{
    match o {
        None => put_field(out, at, 1, 0),
        Some(v) => {
            let flag = put_field(out, at, 1, 1);
            put_variable(out, flag, width, v, 0)
        }
    }
}

// The codec flag and, where it is set, the reserved octet.
fn put_codec_data(out: &mut [u8], at: BitOffset, flag: u64) -> BitOffset
    requires { Room out.old at.0 (codec_data_bits flag) }
    ensures { Put out.old at.0 (codec_data_bits flag) out.new result.0 }
{
    if flag == 0 {
        return put_field(out, at, 1, 0);
    }
    let next = put_field(out, at, 1, 1);
    put_field(out, next, 8, 0)
}

// The width low bits of a setting, where it is there.
fn put_present(out: &mut [u8], at: BitOffset, width: usize, o: Option<u64>) -> BitOffset
    requires { (width ≤ 64) × Room out.old at.0 (present_field (number_bits width) o) }
    ensures { Put out.old at.0 (present_field (number_bits width) o) out.new result.0 }
{
    match o {
        None => at,
        Some(v) => put_field(out, at, width, v),
    }
}

// The settings before the codec flag.
fn put_timing(out: &mut [u8], at: BitOffset, t: EmdfPayloadConfig) -> BitOffset
    requires { Room out.old at.0 (timing_bits t) }
    ensures { Put out.old at.0 (timing_bits t) out.new result.0 }
{
    let first = put_sample_offset(out, at, t.sample_offset);
    let second = put_flagged(out, first, 11, t.duration);
    put_flagged(out, second, 2, t.group_id)
}

// The settings after the codec flag.
fn put_controls(out: &mut [u8], at: BitOffset, t: EmdfPayloadConfig) -> BitOffset
    requires { Room out.old at.0 (controls_bits t) }
    ensures { Put out.old at.0 (controls_bits t) out.new result.0 }
{
    let first = put_field(out, at, 1, t.discard_unknown_payload);
    let second = put_present(out, first, 1, t.payload_frame_aligned);
    let third = put_present(out, second, 1, t.create_duplicate);
    let fourth = put_present(out, third, 1, t.remove_duplicate);
    let fifth = put_present(out, fourth, 5, t.priority);
    put_present(out, fifth, 2, t.processing_allowed)
}

// The ten settings.
pub fn put_config(out: &mut [u8], at: BitOffset, t: EmdfPayloadConfig) -> BitOffset
    requires { Room out.old at.0 (config_bits t) }
    ensures { Put out.old at.0 (config_bits t) out.new result.0 }
{
    let timing = put_timing(out, at, t);
    let codec = put_codec_data(out, timing, t.codec_data_present);
    put_controls(out, codec, t)
}

// The size of a body, and its octets.
pub fn put_body(out: &mut [u8], at: BitOffset, body: &[u8]) -> BitOffset
    requires { Room out.old at.0 (variable_field 8 (length body.now) ⨟ octet_bits body.now) }
    ensures { Put out.old at.0 (variable_field 8 (length body.now) ⨟ octet_bits body.now) out.new result.0 }
{
    let size = put_variable(out, at, 8, body.len() as u64, 0);
    put_octets(out, size, body)
}

// A payload.
pub fn put_payload(
    out: &mut [u8],
    at: BitOffset,
    id: u64,
    config: EmdfPayloadConfig,
    body: &[u8],
) -> BitOffset
    requires { Room out.old at.0 (payload_bits (record { id = id; config = config; body = body.now })) }
    ensures { Put out.old at.0 (payload_bits (record { id = id; config = config; body = body.now })) out.new result.0 }
{
    let settings = put_extended(out, at, 5, id);
    let size = put_config(out, settings, config);
    put_body(out, size, body)
}

// The codes of two protections and their octets.
pub fn put_protection(out: &mut [u8], at: BitOffset, primary: &[u8], secondary: &[u8]) -> BitOffset
    requires { Room out.old at.0 (protection_bits primary.now secondary.now) }
    ensures { Put out.old at.0 (protection_bits primary.now secondary.now) out.new result.0 }
{
    let first = put_field(out, at, 2, emdf_measure::protection_code(primary.len()));
    let codes = put_field(
        out,
        first,
        2,
        emdf_measure::protection_code(secondary.len()),
    );
    let next = put_octets(out, codes, primary);
    put_octets(out, next, secondary)
}

// n bits of s, from bit from on.
pub fn put_run(out: &mut [u8], at: BitOffset, s: &[u8], from: BitOffset, n: usize) -> BitOffset
    requires { Room out.old at.0 (bit_run s.now from.0 n) × (from.0 + n ≤ length s.now * 8) × (length s.now < 2 ^ 61) }
    ensures { Put out.old at.0 (bit_run s.now from.0 n) out.new result.0 }
{
    emdf_writer::copy_bits(out, at.0, s, from.0, n);
    BitOffset(at.0 + n)
}

// The sync word, and the length that the container declares.
pub fn put_sync(out: &mut [u8], size: ByteCount) -> BitOffset
    requires { Room out.old 0 (sync_bits size.0) }
    ensures { Put out.old 0 (sync_bits size.0) out.new result.0 }
{
    emdf_writer::put_u16(out, 0, u64::from(emdf_format::SYNCWORD));
    emdf_writer::put_u16(out, 2, size.0 as u64);
    BitOffset(32)
}

// What stands before the payloads.
pub fn put_header(out: &mut [u8], size: ByteCount, key: u64) -> BitOffset
    requires { Room out.old 0 (header_bits size.0 key) }
    ensures { Put out.old 0 (header_bits size.0 key) out.new result.0 }
{
    let sync = put_sync(out, size);
    let version = put_field(out, sync, 2, 0);
    put_extended(out, version, 3, key)
}
