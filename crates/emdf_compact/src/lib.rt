// Settings and sizes that lie in words of 64 bits, read without a cursor.
#![tactic(auto)]

ghost use Rattle.std.specs.Prelude.{◌≡◌, ◌≤◌, if◌then◌else◌};
ghost use Rattle.emdf_compact.specs.Words.{flagged_span, flagged_value, flagged_ends, variable_span, variable_value, variable_ends, codec_span, codec_ends, present_span, present_value, controls_span, compact_controls, compact_config, config_length, grouped_length, grouped_head, size_length, size_value};

use emdf_format::EmdfPayloadConfig;

// A flag and, where it is set, w bits and a bit that is 0: how many bits that is.
fn flagged_span(x: u64, w: u64) -> u64
    requires { w ≤ 11 }
    ensures { (result ≡ flagged_span w x) × (result ≤ 13) }
{
    if x >> 63 == 0 {
        return 1;
    }
    w + 2
}

// The same, or 64 where the last bit is not 0.
fn flagged_length(x: u64, w: u64) -> u64
    requires { w ≤ 11 }
    ensures { (result ≡ (if flagged_ends w x then flagged_span w x else 64)) × (result ≤ 64) }
{
    if x >> 63 == 0 {
        return 1;
    }
    if (x >> (62 - w)) % 2 == 0 {
        return w + 2;
    }
    64
}

// The w bits.
fn flagged_value(x: u64, w: u64) -> Option<u64>
    requires { (1 ≤ w) × (w ≤ 11) }
    ensures { result ≡ flagged_value w x }
{
    if x >> 63 == 0 {
        return None;
    }
    Some((x << 1) >> (64 - w))
}

// A flag and, where it is set, a variable field of one group or two, of w bits each: how many bits that is.
fn variable_span(x: u64, w: u64) -> u64
    requires { w ≤ 11 }
    ensures { (result ≡ variable_span w x) × (result ≤ 25) }
{
    if x >> 63 == 0 {
        return 1;
    }
    if (x >> (62 - w)) % 2 == 0 {
        return w + 2;
    }
    2 * w + 3
}

// The same, or 64 where there are more groups.
fn variable_length(x: u64, w: u64) -> u64
    requires { w ≤ 11 }
    ensures { (result ≡ (if variable_ends w x then variable_span w x else 64)) × (result ≤ 64) }
{
    if x >> 63 == 0 {
        return 1;
    }
    if (x >> (62 - w)) % 2 == 0 {
        return w + 2;
    }
    if (x >> (61 - 2 * w)) % 2 == 0 {
        return 2 * w + 3;
    }
    64
}

// Its value: the second group starts past the values of one.
fn variable_value(x: u64, w: u64) -> Option<u64>
    requires { (1 ≤ w) × (w ≤ 11) }
    ensures { result ≡ variable_value w x }
{
    if x >> 63 == 0 {
        return None;
    }
    let first = (x << 1) >> (64 - w);
    if (x >> (62 - w)) % 2 == 0 {
        return Some(first);
    }
    let second = (x << (w + 2)) >> (64 - w);
    Some(((first + 1) << w) + second)
}

// The codec data's flag and, where it is set, the reserved octet: how many bits that is, or 64 where the octet is not 0.
fn codec_length(x: u64) -> u64
    ensures { (result ≡ (if codec_ends x then codec_span x else 64)) × (result ≤ 64) }
{
    if x >> 63 == 0 {
        return 1;
    }
    if (x >> 55) % 256 == 0 {
        return 9;
    }
    64
}

// The settings from discard on: how many bits they take.
fn controls_length(x: u64, offset: bool) -> u64
    ensures { (result ≡ controls_span offset x) × (result ≤ 11) }
{
    if x >> 63 == 1 {
        return 1;
    }
    if offset {
        return 8;
    }
    if x >> 62 == 0 {
        return 2;
    }
    11
}

// How many bits compact settings take; 64 where they are not compact.
pub fn config_length(x: u64) -> u64
    ensures { (result ≡ config_length x) × (result ≤ 64) }
{
    grouped_length(x) % 128
}

// The same, and 128 more where their group id has two groups; they have no other field of more than one.
fn grouped_length(x: u64) -> u64
    ensures { (result ≡ grouped_length x) × (result ≤ 192) }
{
    // The shortest settings, nothing but discard, which many payloads have.
    if x >> 59 == 1 {
        return 5;
    }
    parts_length(x)
}

// The same, part by part.
fn parts_length(x: u64) -> u64
    ensures { (result ≡ grouped_length x) × (result ≤ 192) }
{
    let offset = flagged_length(x, 11);
    if offset == 64 {
        return 64;
    }
    let x1 = x << offset;
    let duration = flagged_length(x1, 11);
    if duration == 64 {
        return 64;
    }
    let x2 = x1 << duration;
    let group = variable_length(x2, 2);
    if group == 64 {
        return 64;
    }
    let x3 = x2 << group;
    let codec = codec_length(x3);
    if codec == 64 {
        return 64;
    }
    let head = offset + duration + group + codec;
    if 41 < head {
        return 64;
    }
    // A group id takes 1, 4 or 7 bits.
    head + controls_length(x3 << codec, offset == 13) + 128 * ((group + 1) / 8)
}

// An id below the escape and compact settings, or the id 0 alone: how many bits that is, and 128 more as above. 0 where it is
// neither.
pub fn head_length(x: u64) -> u64
    ensures { result ≡ grouped_head x }
{
    let id = x >> 59;
    if id == 0 {
        return 5;
    }
    if id == 31 {
        return 0;
    }
    let config = grouped_length(x << 5);
    if config == 64 {
        return 0;
    }
    5 + config
}

// A size of one group or two: how many bits it takes. 0 where it has more.
pub fn size_length(x: u64) -> u64
    ensures { result ≡ size_length x }
{
    if (x >> 55) % 2 == 0 {
        return 9;
    }
    if (x >> 46) % 2 == 0 {
        return 18;
    }
    0
}

pub fn size_value(x: u64) -> u64
    ensures { result ≡ size_value x }
{
    if (x >> 55) % 2 == 0 {
        return x >> 56;
    }
    (x >> 56) * 256 + 256 + (x >> 47) % 256
}

fn present_span(there: bool, w: u64) -> u64
    requires { w ≤ 2 }
    ensures { (result ≡ present_span there w) × (result ≤ 2) }
{
    if there { w } else { 0 }
}

fn present_value(x: u64, there: bool, w: u64) -> Option<u64>
    requires { (1 ≤ w) × (w ≤ 64) }
    ensures { result ≡ present_value there w x }
{
    if !there {
        return None;
    }
    Some(x >> (64 - w))
}

// Compact settings.
pub fn compact_config(x: u64) -> EmdfPayloadConfig
    ensures { result ≡ compact_config x }
{
    let x1 = x << flagged_span(x, 11);
    let x2 = x1 << flagged_span(x1, 11);
    let x3 = x2 << variable_span(x2, 2);
    let codec = x3 >> 63;
    let offset = flagged_value(x, 11);
    let duration = flagged_value(x1, 11);
    let group = variable_value(x2, 2);
    compact_controls(x3 << (1 + 8 * codec), offset, duration, group, codec)
}

// The settings from discard on, beside those before them.
fn compact_controls(
    x: u64,
    offset: Option<u64>,
    duration: Option<u64>,
    group: Option<u64>,
    codec: u64,
) -> EmdfPayloadConfig
    ensures { result ≡ compact_controls offset duration group codec x }
{
    let discard = x >> 63;
    let x1 = x << 1;
    let there = emdf_settings::has_aligned(discard, offset);
    let aligned = present_value(x1, there, 1);
    let x2 = x1 << present_span(there, 1);
    let kept = emdf_settings::is_one(aligned);
    let create = present_value(x2, kept, 1);
    let remove = present_value(x2 << 1, kept, 1);
    let x3 = x2 << present_span(kept, 2);
    let ranked = emdf_settings::has_priority(discard, offset, aligned);
    let priority = present_value(x3, ranked, 5);
    let processing = present_value(x3 << 5, ranked, 2);
    EmdfPayloadConfig {
        sample_offset: offset,
        duration,
        group_id: group,
        codec_data_present: codec,
        discard_unknown_payload: discard,
        payload_frame_aligned: aligned,
        create_duplicate: create,
        remove_duplicate: remove,
        priority,
        processing_allowed: processing,
    }
}
