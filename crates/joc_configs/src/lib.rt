// The settings of an OAMD and a JOC payload, judged by table 56 as the original has it: marks, and whether a profile lets
// them pass.
#![tactic(auto)]

ghost use Rattle.std.specs.Prelude.{◌≡◌, ◌<◌, map};
ghost use Rattle.emdf_format.specs.Profile.{meets, differ, on_oamd, table56, marks, deviations, word, ones, all_pass, meets_profile, status, judge};
ghost use Rattle.emdf_format.specs.declared.JocValidationProfile.TheVariants.{ObservedVendorCompat};
ghost use Rattle.joc_configs.specs.Settings.{setting_of, passes_as};

use emdf_format::{
    EmdfPayloadConfig, JocProfileError, JocProfileValue, JocRole, JocValidationProfile,
    JocValidationStatus, PlacedConfig, ValidatedJocProfile,
};

// How many settings a payload has.
const SETTINGS: usize = 10;

// A setting of a payload, as table 56 has it.
#[derive(Clone, Copy)]
struct Setting {
    wanted: JocProfileValue,
    // The one other value that compat lets pass, where there is one: Some(None) lets the setting be absent.
    allowed: Option<Option<u64>>,
    found: Option<u64>,
}

impl Setting {
    fn new(wanted: JocProfileValue, allowed: Option<Option<u64>>, found: Option<u64>) -> Self
        ensures { result ≡ record { wanted = wanted; allowed = allowed; found = found } }
    {
        Setting {
            wanted,
            allowed,
            found,
        }
    }
}

// Table 56, as the original has it, of a carrier with this largest number of groups.
pub fn judge_configs(
    profile: JocValidationProfile,
    most: usize,
    oamd: PlacedConfig,
    joc: PlacedConfig,
) -> Result<ValidatedJocProfile, JocProfileError>
    ensures { result ≡ judge profile most oamd joc }
{
    let marks = deviation_marks(oamd.config, joc.config);
    let count = marks.count_ones();
    if !meets_profile(profile, oamd.config, joc.config, count) {
        return Err(JocProfileError::Configuration {
            deviations: marks,
            count,
        });
    }
    Ok(ValidatedJocProfile {
        oamd: oamd.place,
        joc: joc.place,
        deviations: marks,
        status: status_of(count),
        largest_groups: most,
    })
}

fn status_of(count: u32) -> JocValidationStatus
    ensures { result ≡ status count }
{
    if count == 0 {
        JocValidationStatus::NormativeCompliant
    } else {
        JocValidationStatus::AcceptedWithDeviation
    }
}

// Strict lets no deviation pass; compat goes by the values, and never lets unequal group ids pass.
fn meets_profile(
    profile: JocValidationProfile,
    oamd: EmdfPayloadConfig,
    joc: EmdfPayloadConfig,
    count: u32,
) -> bool
    requires { count ≡ ones (deviations oamd joc) }
    ensures { result ≡ meets_profile profile oamd joc }
{
    match profile {
        JocValidationProfile::EtsiStrict => count == 0,
        JocValidationProfile::ObservedVendorCompat => meets_compat(oamd, joc),
    }
}

fn meets_compat(oamd: EmdfPayloadConfig, joc: EmdfPayloadConfig) -> bool
    ensures { result ≡ meets_profile ObservedVendorCompat oamd joc }
{
    config_passes(JocRole::Oamd, oamd)
        && config_passes(JocRole::Joc, joc)
        && !differs(oamd.group_id, joc.group_id)
}

// The ten settings of a payload, by the values that compat lets pass.
fn config_passes(role: JocRole, t: EmdfPayloadConfig) -> bool
    ensures { result ≡ all_pass (table56 role t) }
{
    table56(role, t)
        .iter()
        .all(|s| passes(s.wanted, s.allowed, s.found))
}

// The settings in their order, and what table 56 has of them.
fn table56(role: JocRole, t: EmdfPayloadConfig) -> [Setting; SETTINGS]
    ensures { result ≡ map setting_of (table56 role t) }
{
    let zero = on_oamd(role, Some(Some(0)));
    let absent = on_oamd(role, Some(None));
    [
        Setting::new(JocProfileValue::Absent, None, t.sample_offset),
        Setting::new(JocProfileValue::Absent, None, t.duration),
        Setting::new(JocProfileValue::Present, None, t.group_id),
        Setting::new(
            JocProfileValue::Unsigned(1),
            Some(Some(0)),
            Some(t.codec_data_present),
        ),
        Setting::new(
            JocProfileValue::Unsigned(0),
            None,
            Some(t.discard_unknown_payload),
        ),
        Setting::new(JocProfileValue::Unsigned(1), zero, t.payload_frame_aligned),
        Setting::new(JocProfileValue::Unsigned(0), absent, t.create_duplicate),
        Setting::new(JocProfileValue::Unsigned(0), absent, t.remove_duplicate),
        Setting::new(JocProfileValue::Unsigned(0), absent, t.priority),
        Setting::new(JocProfileValue::Unsigned(0), absent, t.processing_allowed),
    ]
}

// What is let pass on OAMD alone.
fn on_oamd(role: JocRole, allowed: Option<Option<u64>>) -> Option<Option<u64>>
    ensures { result ≡ on_oamd role allowed }
{
    match role {
        JocRole::Oamd => allowed,
        JocRole::Joc => None,
    }
}

// What is wanted, or the one other value that is let pass.
fn passes(wanted: JocProfileValue, allowed: Option<Option<u64>>, found: Option<u64>) -> bool
    ensures { result ≡ passes_as wanted allowed found }
{
    meets_wanted(wanted, found) || allowed == Some(found)
}

fn meets_wanted(wanted: JocProfileValue, found: Option<u64>) -> bool
    ensures { result ≡ meets wanted found }
{
    match wanted {
        JocProfileValue::Absent => found.is_none(),
        JocProfileValue::Present => found.is_some(),
        JocProfileValue::Unsigned(v) => found == Some(v),
    }
}

// Two absent values don't differ.
fn differs(a: Option<u64>, b: Option<u64>) -> bool
    ensures { result ≡ differ a b }
{
    a != b
}

// The twenty-one marks: OAMD's ten, JOC's ten, unequal group ids.
fn deviation_marks(oamd: EmdfPayloadConfig, joc: EmdfPayloadConfig) -> u32
    ensures { result ≡ word (deviations oamd joc) }
{
    let first = config_marks(JocRole::Oamd, oamd);
    let second = config_marks(JocRole::Joc, joc);
    let unequal = u32::from(differs(oamd.group_id, joc.group_id));
    first + (second << SETTINGS) + (unequal << (2 * SETTINGS))
}

// The ten marks of a payload, the first the lowest bit: 1 where a setting is not what is wanted.
fn config_marks(role: JocRole, t: EmdfPayloadConfig) -> u32
    ensures { (result ≡ word (marks (table56 role t))) × (result < 1024) }
{
    let settings = table56(role, t);
    let mut word = 0;
    for (k, s) in settings.iter().enumerate() {
        if !meets_wanted(s.wanted, s.found) {
            word += 1 << k;
        }
    }
    word
}
