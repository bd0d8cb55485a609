// Reading carriers, and their class: the port of openjoc-emdf, over its containers. Each function answers what its definition in
// emdf_format says.
#![tactic(auto)]

ghost use Rattle.std.specs.Prelude.{◌≡◌, ◌+◌, ◌-◌, ◌*◌, ◌^◌, ◌≤◌, ◌<◌, length};
ghost use Rattle.emdf_format.specs.Reading.{reading};
ghost use Rattle.emdf_format.specs.Calls.{classify};
ghost use Rattle.openjoc_emdf.specs.Answers.{parse_answer, class_answer, first_payload, open_answer};

use emdf_container::EmdfContainer;
use emdf_format::{EmdfError, SYNCWORD, TruncatedPart};
use openjoc_bitio::{BitCursor, ByteCount};

// A carrier that is read: its container, and the bytes that it takes.
#[derive(Clone, Copy)]
pub struct ParsedEmdf {
    pub container: EmdfContainer,
    pub bytes_consumed: ByteCount,
}

// What a range that may be a carrier is.
#[derive(Clone, Copy)]
pub enum CarrierClassification {
    // No sync word at its start.
    NonEmdf,
    // Exactly one container.
    Parsed(ParsedEmdf),
    // A container, and bytes after it.
    TrailingData {
        container_bytes: ByteCount,
        carrier_bytes: ByteCount,
    },
    // A sync word, and then no container.
    Malformed(EmdfError),
}

// Reads the carrier at the start of bytes; what follows it is not looked at.
pub fn parse_emdf_sync(bytes: &[u8]) -> Result<ParsedEmdf, EmdfError>
    ensures { result ≡ parse_answer (reading bytes.now) }
{
    let length = bytes.len();
    if length < 4 {
        return Err(EmdfError::TruncatedContainer {
            part: TruncatedPart::Header,
            declared: 4,
            available: length,
        });
    }
    let sync = u16::from_be_bytes([bytes[0], bytes[1]]);
    if sync != SYNCWORD {
        return Err(EmdfError::InvalidSyncword { actual: sync });
    }
    let declared = usize::from(u16::from_be_bytes([bytes[2], bytes[3]]));
    let available = length - 4;
    if available < declared {
        return Err(EmdfError::TruncatedContainer {
            part: TruncatedPart::Body,
            declared,
            available,
        });
    }
    let n = 4 + declared;
    let whole = BitCursor {
        position: 32,
        end: n * 8,
    };
    let container = emdf_container::parse_container(&bytes[..n], whole)?;
    Ok(ParsedEmdf {
        container,
        bytes_consumed: ByteCount(n),
    })
}

// Reads the carrier, for a caller who then goes through its payloads with next_payload: the cursor is at the first of them, and
// ends where the container does.
pub fn open_carrier(bytes: &[u8]) -> Result<(ParsedEmdf, BitCursor), EmdfError>
    ensures { result ≡ open_answer bytes.now (reading bytes.now) }
{
    let parsed = parse_emdf_sync(bytes)?;
    Ok((parsed, first_payload(bytes, parsed.bytes_consumed.0)))
}

// Past the version, which is 0 and takes 2 bits, and past the key id.
fn first_payload(bytes: &[u8], n: usize) -> BitCursor
    requires { (n ≤ length bytes.now) × (n * 8 < 2 ^ 64) }
    ensures { result ≡ first_payload n bytes.now }
{
    // A key id below the escape takes 3 bits.
    if 5 <= n && openjoc_bitio::window_at(&bytes[..n], 32) >> 59 < 7 {
        return BitCursor {
            position: 37,
            end: n * 8,
        };
    }
    let key = BitCursor {
        position: 34,
        end: n * 8,
    };
    match emdf_fields::extended_value(&bytes[..n], key, 7, 3) {
        Ok((_, next)) => next,
        Err(e) => e.cursor,
    }
}

// What a range of bytes is. It never looks for a sync word but at its start.
pub fn classify_emdf_carrier(bytes: &[u8]) -> CarrierClassification
    ensures { result ≡ class_answer (classify bytes.now) }
{
    let length = bytes.len();
    if length < 2 || u16::from_be_bytes([bytes[0], bytes[1]]) != SYNCWORD {
        return CarrierClassification::NonEmdf;
    }
    match parse_emdf_sync(bytes) {
        Ok(parsed) if parsed.bytes_consumed.0 == length => CarrierClassification::Parsed(parsed),
        Ok(parsed) => CarrierClassification::TrailingData {
            container_bytes: parsed.bytes_consumed,
            carrier_bytes: ByteCount(length),
        },
        Err(why) => CarrierClassification::Malformed(why),
    }
}
