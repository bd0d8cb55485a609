// The settings of a payload: which of them the rule wants, and settings read field by field.
#![tactic(auto)]

ghost use Rattle.std.specs.Prelude.{◌≡◌, ◌≤◌, if◌then◌else◌};
ghost use Rattle.emdf_format.specs.Contents.{is_present, is_one, has_aligned, has_priority};
ghost use Rattle.emdf_format.specs.Reader.{bits, variable_bits, present, flagged};
ghost use Rattle.emdf_format.specs.Reading.{sample_offset_of, codec_data, config_controls, payload_config};
ghost use Rattle.emdf_fields.specs.Fields.{field_answer, answer};

use emdf_fields::FieldError;
use emdf_format::{EmdfError, EmdfPayloadConfig, MAX_DURATION_GROUPS, MAX_EXTENDED_GROUPS};
use openjoc_bitio::BitCursor;

// Whether a setting is there.
pub fn is_present(o: Option<u64>) -> bool
    ensures { result ≡ is_present o }
{
    o.is_some()
}

// Whether a setting is there and is 1.
pub fn is_one(o: Option<u64>) -> bool
    ensures { result ≡ is_one o }
{
    o == Some(1)
}

// Whether the rule wants payload_frame_aligned.
pub fn has_aligned(discard: u64, offset: Option<u64>) -> bool
    ensures { result ≡ has_aligned discard offset }
{
    discard == 0 && !is_present(offset)
}

// Whether the rule wants priority and processing.
pub fn has_priority(discard: u64, offset: Option<u64>, aligned: Option<u64>) -> bool
    ensures { result ≡ has_priority discard offset aligned }
{
    discard == 0 && (is_present(offset) || is_one(aligned))
}

// A flag and, where it is set, a sample offset with its reserved bit.
fn sample_offset(s: &[u8], c: BitCursor) -> Result<(Option<u64>, BitCursor), EmdfError>
    ensures { result ≡ answer c.end (flagged sample_offset_of s.now c.end c.position) }
{
    let (flag, c1) = emdf_fields::read_bits(s, c, 1)?;
    if flag != 1 {
        return Ok((None, c1));
    }
    let (value, c2) = emdf_fields::read_bits(s, c1, 11)?;
    let (reserved, c3) = emdf_fields::read_bits(s, c2, 1)?;
    if reserved != 0 {
        return Err(EmdfError::NonzeroReservedData);
    }
    Ok((Some(value), c3))
}

// A flag and, where it is set, a variable field.
fn flagged_variable(
    s: &[u8],
    c: BitCursor,
    width: u8,
    limit: u8,
) -> Result<(Option<u64>, BitCursor), EmdfError>
    ensures { result ≡ answer c.end (flagged (variable_bits width limit) s.now c.end c.position) }
{
    let (flag, c1) = emdf_fields::read_bits(s, c, 1)?;
    if flag != 1 {
        return Ok((None, c1));
    }
    let (value, c2) = emdf_fields::variable_field(s, c1, width, limit)?;
    Ok((Some(value), c2))
}

// The codec data's flag and, where it is set, the reserved octet.
fn codec_data(s: &[u8], c: BitCursor) -> Result<(u64, BitCursor), FieldError>
    ensures { result ≡ field_answer c.end (codec_data s.now c.end c.position) }
{
    let (flag, c1) = emdf_fields::read_bits(s, c, 1)?;
    if flag == 0 {
        return Ok((flag, c1));
    }
    let (reserved, c2) = emdf_fields::read_bits(s, c1, 8)?;
    if reserved != 0 {
        return Err(FieldError {
            why: EmdfError::NonzeroReservedData,
            cursor: c2,
        });
    }
    Ok((flag, c2))
}

// n bits, where they are there.
fn present_bits(
    s: &[u8],
    c: BitCursor,
    there: bool,
    n: u8,
) -> Result<(Option<u64>, BitCursor), EmdfError>
    ensures { result ≡ answer c.end (present there (bits n) s.now c.end c.position) }
{
    if !there {
        return Ok((None, c));
    }
    let (value, c1) = emdf_fields::read_bits(s, c, n)?;
    Ok((Some(value), c1))
}

// The ten settings of a payload.
pub fn payload_config(s: &[u8], c: BitCursor) -> Result<(EmdfPayloadConfig, BitCursor), EmdfError>
    ensures { result ≡ answer c.end (payload_config s.now c.end c.position) }
{
    let (offset, c1) = sample_offset(s, c)?;
    let (duration, c2) = flagged_variable(s, c1, 11, MAX_DURATION_GROUPS)?;
    let (group, c3) = flagged_variable(s, c2, 2, MAX_EXTENDED_GROUPS)?;
    let (codec, c4) = codec_data(s, c3)?;
    let (discard, c5) = emdf_fields::read_bits(s, c4, 1)?;
    config_controls(s, c5, offset, duration, group, codec, discard)
}

// The settings after discard, beside those before them.
fn config_controls(
    s: &[u8],
    c: BitCursor,
    offset: Option<u64>,
    duration: Option<u64>,
    group: Option<u64>,
    codec: u64,
    discard: u64,
) -> Result<(EmdfPayloadConfig, BitCursor), EmdfError>
    ensures { result ≡ answer c.end (config_controls offset duration group codec discard s.now c.end c.position) }
{
    let (aligned, c1) = present_bits(s, c, has_aligned(discard, offset), 1)?;
    let (create, c2) = present_bits(s, c1, is_one(aligned), 1)?;
    let (remove, c3) = present_bits(s, c2, is_one(aligned), 1)?;
    let ranked = has_priority(discard, offset, aligned);
    let (priority, c4) = present_bits(s, c3, ranked, 5)?;
    let (processing, c5) = present_bits(s, c4, ranked, 2)?;
    let config = EmdfPayloadConfig {
        sample_offset: offset,
        duration,
        group_id: group,
        codec_data_present: codec,
        discard_unknown_payload: discard,
        payload_frame_aligned: aligned,
        create_duplicate: create,
        remove_duplicate: remove,
        priority,
        processing_allowed: processing,
    };
    Ok((config, c5))
}
