// Settings from a host's bytes.
#![tactic(auto)]

ghost use Rattle.std.specs.Prelude.{◌≡◌, ◌+◌, ◌*◌, ◌<◌, ◌≤◌, length};
ghost use Rattle.emdf_answers.specs.Form.{number_at};
ghost use Rattle.emdf_settings_bytes.specs.Settings.{optional_at, pair_formed, pairs_formed, settings_formed, config_of, unformed, settings_of};

use emdf_format::EmdfPayloadConfig;

// A payload's settings: 18 numbers.
const SETTINGS_BYTES: usize = 144;

// The settings that bytes are; outside the form, settings that are not writable.
pub fn settings_of(s: &[u8]) -> EmdfPayloadConfig
    ensures { result ≡ settings_of s.now }
{
    let Ok(bytes) = <&[u8; SETTINGS_BYTES]>::try_from(s) else {
        return unformed_settings();
    };
    if settings_formed(bytes) {
        config_of(bytes)
    } else {
        unformed_settings()
    }
}

fn unformed_settings() -> EmdfPayloadConfig
    ensures { result ≡ unformed }
{
    EmdfPayloadConfig {
        sample_offset: None,
        duration: None,
        group_id: None,
        codec_data_present: 2,
        discard_unknown_payload: 1,
        payload_frame_aligned: None,
        create_duplicate: None,
        remove_duplicate: None,
        priority: None,
        processing_allowed: None,
    }
}

#[tactic(auto, unfolding(crate::specs::Settings::config_of))]
fn config_of(s: &[u8; SETTINGS_BYTES]) -> EmdfPayloadConfig
    ensures { result ≡ config_of s.now }
{
    EmdfPayloadConfig {
        sample_offset: optional_at(s, 0),
        duration: optional_at(s, 2),
        group_id: optional_at(s, 4),
        codec_data_present: number_at(s, 6),
        discard_unknown_payload: number_at(s, 7),
        payload_frame_aligned: optional_at(s, 8),
        create_duplicate: optional_at(s, 10),
        remove_duplicate: optional_at(s, 12),
        priority: optional_at(s, 14),
        processing_allowed: optional_at(s, 16),
    }
}

// Whether the eight pairs of a presence and a value are of the form.
fn settings_formed(s: &[u8; SETTINGS_BYTES]) -> bool
    ensures { result ≡ settings_formed s.now }
{
    pairs_formed(s, 0, 3) && pairs_formed(s, 8, 5)
}

// Whether count pairs are, from number first on.
fn pairs_formed(s: &[u8; SETTINGS_BYTES], first: usize, count: usize) -> bool
    requires { first + 2 * count ≤ 18 }
    ensures { result ≡ pairs_formed s.now first count }
{
    (0..count).all(|i| pair_formed(s, first + 2 * i))
}

// A presence of 1, or one of 0 and the value 0.
#[tactic(auto, unfolding(crate::specs::Settings::pair_formed))]
fn pair_formed(s: &[u8; SETTINGS_BYTES], k: usize) -> bool
    requires { k < 17 }
    ensures { result ≡ pair_formed s.now k }
{
    match number_at(s, k) {
        0 => number_at(s, k + 1) == 0,
        presence => presence == 1,
    }
}

#[tactic(auto, unfolding(crate::specs::Settings::optional_at))]
fn optional_at(s: &[u8; SETTINGS_BYTES], k: usize) -> Option<u64>
    requires { k < 17 }
    ensures { result ≡ optional_at s.now k }
{
    match number_at(s, k) {
        0 => None,
        _ => Some(number_at(s, k + 1)),
    }
}

// Number k of some bytes.
#[tactic(auto, unfolding(emdf_answers::specs::Form::number_at))]
fn number_at(s: &[u8; SETTINGS_BYTES], k: usize) -> u64
    requires { k < 18 }
    ensures { result ≡ number_at s.now k }
{
    openjoc_bitio::octets_at(s, 8 * k)
}
