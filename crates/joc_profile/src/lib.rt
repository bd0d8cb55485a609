// The verdict on a carrier: TS 103 420 tables 55 and 56 as the original has them, by a strict and by a compatible policy.
#![tactic(auto)]

ghost use Rattle.std.specs.Prelude.{◌≡◌, List, ◌+◌, ◌≤◌, ◌<◌, ◌^◌};
ghost use Rattle.openjoc_bitio.specs.declared.BitCursor.{BitCursor};
ghost use Rattle.emdf_format.specs.Reading.{Found};
ghost use Rattle.emdf_format.specs.Profile.{verdict};
ghost use Rattle.emdf_format.specs.declared.PayloadRecord.{PayloadRecord};
ghost use Rattle.emdf_format.specs.declared.JocValidationProfile.TheVariants.{EtsiStrict};
ghost use Rattle.emdf_payloads.specs.Payloads.{Listed, step_at};
ghost use Rattle.joc_profile.specs.declared.Seen.TheVariants.{One};
ghost use Rattle.joc_profile.specs.Pair.{count_of, seen_next, pair_of, judged_pair};

use emdf_format::{
    EmdfError, JOC_PAYLOAD_ID, JocProfileError, JocValidationProfile, OAMD_PAYLOAD_ID,
    PlacedConfig, ValidatedJocProfile,
};
use openjoc_bitio::BitCursor;

// The payloads with one id: none, one with its place and its settings, or how many.
#[derive(Clone, Copy)]
enum Seen {
    Nothing,
    One(PlacedConfig),
    Several(usize),
}

// The verdict on the carrier at the start of bytes, by a policy.
pub fn validate_joc_profile_for(
    bytes: &[u8],
    profile: JocValidationProfile,
) -> Result<ValidatedJocProfile, JocProfileError>
    ensures { result ≡ verdict profile bytes.now }
{
    let (parsed, first) = openjoc_emdf::open_carrier(bytes).map_err(JocProfileError::Emdf)?;
    let n = parsed.bytes_consumed.0;
    let (oamd, joc) = find_pair(&bytes[..n], first).map_err(JocProfileError::Emdf)?;
    judge_pair(profile, parsed.container.largest_groups, oamd, joc)
}

// The verdict by the strict policy.
pub fn validate_joc_profile(bytes: &[u8]) -> Result<ValidatedJocProfile, JocProfileError>
    ensures { result ≡ verdict EtsiStrict bytes.now }
{
    validate_joc_profile_for(bytes, JocValidationProfile::EtsiStrict)
}

// Table 55: goes through the payloads to the end of the list.
fn find_pair(s: &[u8], first: BitCursor) -> Result<(Seen, Seen), EmdfError>
    ensures { (xs : List Found) → Listed s.now first xs → result ≡ pair_of xs }
{
    let mut oamd = Seen::Nothing;
    let mut joc = Seen::Nothing;
    let mut place: usize = 0;
    let mut at = first;
    // The walk ends at the list's end mark and at no known place, so places are counted along.
    loop {
        let (step, next) = emdf_payloads::skip_payload(s, at)?;
        let Some(id) = step else {
            return Ok((oamd, joc));
        };
        oamd = seen_next(oamd, OAMD_PAYLOAD_ID, place, id, s, at);
        joc = seen_next(joc, JOC_PAYLOAD_ID, place, id, s, at);
        place += 1;
        at = next;
    }
}

// One more payload, at a place. Only the first with the wanted id is read once more, for its settings.
fn seen_next(before: Seen, wanted: u64, place: usize, id: u64, s: &[u8], at: BitCursor) -> Seen
    requires { (count_of before ≤ place) × (place + 1 < 2 ^ 64) }
    ensures { (p : PayloadRecord) (next : BitCursor) → step_at s.now at ≡ Ok (Some p, next) → p.id ≡ id → result ≡ seen_next before wanted place p }
{
    if id != wanted {
        return before;
    }
    match before {
        Seen::Nothing => first_seen(place, s, at),
        Seen::One(_) => Seen::Several(2),
        Seen::Several(n) => Seen::Several(n + 1),
    }
}

// The payload at the cursor, with its settings. The caller went past it already, so it is there.
fn first_seen(place: usize, s: &[u8], at: BitCursor) -> Seen
    ensures { (p : PayloadRecord) (next : BitCursor) → step_at s.now at ≡ Ok (Some p, next) → result ≡ One (record { place = place; config = p.config }) }
{
    match emdf_payloads::next_payload(s, at) {
        Ok((Some(record), _)) => {
            let config = record.config;
            Seen::One(PlacedConfig { place, config })
        }
        Ok((None, _)) => Seen::Nothing,
        Err(_) => Seen::Nothing,
    }
}

fn seen_count(s: Seen) -> usize
    ensures { result ≡ count_of s }
{
    match s {
        Seen::Nothing => 0,
        Seen::One(_) => 1,
        Seen::Several(n) => n,
    }
}

// One payload of each id, or how many there are.
fn judge_pair(
    profile: JocValidationProfile,
    most: usize,
    oamd: Seen,
    joc: Seen,
) -> Result<ValidatedJocProfile, JocProfileError>
    ensures { result ≡ judged_pair profile most oamd joc }
{
    let (Seen::One(first), Seen::One(second)) = (oamd, joc) else {
        return Err(JocProfileError::PayloadCount {
            oamd: seen_count(oamd),
            joc: seen_count(joc),
        });
    };
    joc_configs::judge_configs(profile, most, first, second)
}
