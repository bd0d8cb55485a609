// What is asked of contents: whether they are writable, how many bits they are written as, and how many groups.
#![tactic(auto)]

ghost use Rattle.std.specs.Prelude.{◌≡◌, ◌+◌, ◌*◌, ◌≤◌, ◌<◌, leb};
ghost use Rattle.emdf_format.specs.Syntax.{groups, escape as ones, extended_groups};
ghost use Rattle.emdf_format.specs.Groups.{larger as largerOf, optional_groups};
ghost use Rattle.emdf_format.specs.Contents.{when_present, up_to, present_as_ruled, writable_config, protection_code, codable, extension_bits, flagged_bits, present_bits, needed_config};
ghost use Rattle.emdf_measure.specs.Parts.{writable_controls, control_bits, writable_protection};

use emdf_format::EmdfPayloadConfig;

pub const MAX_SAMPLE_OFFSET: u64 = 2047;

pub const MAX_DURATION: u64 = 4196351;

pub const MAX_GROUP_ID: u64 = 6148914691236517203;

// Whether settings can be written: each in its range, and there exactly where the rule wants it.
pub fn writable_config(t: EmdfPayloadConfig) -> bool
    ensures { result ≡ writable_config t }
{
    at_most(t.sample_offset, MAX_SAMPLE_OFFSET)
        && at_most(t.duration, MAX_DURATION)
        && at_most(t.group_id, MAX_GROUP_ID)
        && t.codec_data_present <= 1
        && t.discard_unknown_payload <= 1
        && writable_controls(t)
}

// The settings after discard.
fn writable_controls(t: EmdfPayloadConfig) -> bool
    ensures { result ≡ writable_controls t }
{
    let aligned = t.payload_frame_aligned;
    let wanted = emdf_settings::has_aligned(t.discard_unknown_payload, t.sample_offset);
    let kept = emdf_settings::is_one(aligned);
    let ranked = emdf_settings::has_priority(t.discard_unknown_payload, t.sample_offset, aligned);
    present_as_ruled(wanted, 1, aligned)
        && present_as_ruled(kept, 1, t.create_duplicate)
        && present_as_ruled(kept, 1, t.remove_duplicate)
        && present_as_ruled(ranked, 31, t.priority)
        && present_as_ruled(ranked, 3, t.processing_allowed)
}

// There exactly where the rule wants it, and then at most n.
fn present_as_ruled(there: bool, n: u64, o: Option<u64>) -> bool
    ensures { result ≡ present_as_ruled there n o }
{
    at_most(o, n) && o.is_some() == there
}

fn at_most(o: Option<u64>, n: u64) -> bool
    ensures { result ≡ when_present (up_to n) o }
{
    o.is_none_or(|v| v <= n)
}

// How many groups a value takes in a variable field.
fn group_count(width: usize, v: u64) -> usize
    requires { (0 < width) × (width < 64) }
    ensures { (result ≡ groups width v) × (result ≤ 64) }
{
    let mut left = v >> width;
    let mut n: usize = 1;
    while left != 0 {
        left = (left - 1) >> width;
        n += 1;
    }
    n
}

// The same, of a field with an escape: of the variable field after it. The escape is all ones.
pub fn extended_groups(width: usize, escape: u64, v: u64) -> usize
    requires { (0 < width) × (width < 64) × (escape ≡ ones width) }
    ensures { result ≡ extended_groups width v }
{
    if v < escape {
        return 0;
    }
    group_count(width, v - escape)
}

pub fn optional_groups(width: usize, o: Option<u64>) -> usize
    requires { (0 < width) × (width < 64) }
    ensures { result ≡ optional_groups width o }
{
    o.map_or(0, |v| group_count(width, v))
}

pub fn larger(a: usize, b: usize) -> usize
    ensures { result ≡ largerOf a b }
{
    a.max(b)
}

// The bits of an id of a payload, with its extension.
pub fn id_bits(id: u64) -> usize
    ensures { result ≡ 5 + extension_bits 5 id }
{
    5 + 6 * extended_groups(5, 31, id)
}

// The bits of version 0 and a key id, with its extension.
pub fn key_bits(key: u64) -> usize
    ensures { result ≡ 5 + extension_bits 3 key }
{
    5 + 4 * extended_groups(3, 7, key)
}

// The bits of the size of a body.
pub fn size_bits(n: usize) -> usize
    ensures { result ≡ 9 * groups 8 n }
{
    9 * group_count(8, n as u64)
}

// The bits of settings.
pub fn config_bits(t: EmdfPayloadConfig) -> usize
    ensures { (result ≡ needed_config t) × (result ≤ 2048) }
{
    let timing = 1
        + present_bits(t.sample_offset, 12)
        + variable_bits(t.duration, 11)
        + variable_bits(t.group_id, 2);
    let codec = if t.codec_data_present == 0 { 1 } else { 9 };
    timing + codec + 1 + control_bits(t)
}

// A flag and, where it is set, a variable field.
fn variable_bits(o: Option<u64>, width: usize) -> usize
    requires { (0 < width) × (width < 12) }
    ensures { (result ≡ flagged_bits (λ v. (width + 1) * groups width v) o) × (result ≤ 769) }
{
    o.map_or(1, |v| 1 + (width + 1) * group_count(width, v))
}

// The bits of the settings after discard.
fn control_bits(t: EmdfPayloadConfig) -> usize
    ensures { (result ≡ control_bits t) × (result ≤ 10) }
{
    present_bits(t.payload_frame_aligned, 1)
        + present_bits(t.create_duplicate, 1)
        + present_bits(t.remove_duplicate, 1)
        + present_bits(t.priority, 5)
        + present_bits(t.processing_allowed, 2)
}

fn present_bits(o: Option<u64>, width: usize) -> usize
    ensures { (result ≡ present_bits width o) × (result ≤ width) }
{
    if o.is_some() { width } else { 0 }
}

// The code of a protection's length, and whether it has one of its own.
pub fn protection_code(n: usize) -> u64
    ensures { result ≡ protection_code n }
{
    match n {
        0 => 0,
        1 => 1,
        4 => 2,
        _ => 3,
    }
}

fn is_codable(n: usize) -> bool
    ensures { result ≡ codable n }
{
    matches!(n, 0 | 1 | 4 | 16)
}

// Whether both protections have a length that has a code, and the first is not empty.
pub fn writable_protection(primary: &[u8], secondary: &[u8]) -> bool
    ensures { result ≡ writable_protection primary.now secondary.now }
{
    !primary.is_empty() && is_codable(primary.len()) && is_codable(secondary.len())
}
