// The EMDF container of ETSI TS 102 366 Annex H: its constants, and the types that definitions and calls share. The format
// itself is specs/.
#![tactic(auto)]

use openjoc_bitio::{BitError, BitOffset, ByteCount};

pub const SYNCWORD: u16 = 0x5838;

// TS 103 420 table 55.
pub const OAMD_PAYLOAD_ID: u64 = 11;

pub const JOC_PAYLOAD_ID: u64 = 14;

// Limits of the original, for which it cites no clause: docs/DIFFERENCES.md.
pub const MAX_EXTENDED_GROUPS: u8 = 31;

pub const MAX_DURATION_GROUPS: u8 = 2;

pub const MAX_SIZE_GROUPS: u8 = 2;

// A container declares its length in 16 bits.
pub const MAX_DECLARED: usize = 65535;

// What of a carrier is cut off: its first four bytes, or bytes that they declare.
#[derive(Clone, Copy)]
pub enum TruncatedPart {
    Header,
    Body,
}

// Why a reading is refused.
#[derive(Clone, Copy)]
pub enum EmdfError {
    TruncatedContainer {
        part: TruncatedPart,
        declared: usize,
        available: usize,
    },
    InvalidSyncword {
        actual: u16,
    },
    Bit(BitError),
    InvalidVariableBits {
        width: u8,
        limit: u8,
    },
    VariableBitsGroupLimit {
        width: u8,
        limit: u8,
    },
    ValueOverflow,
    UnsupportedVersion {
        version: u64,
    },
    NonzeroReservedData,
    ReservedPrimaryProtectionLength,
    ExcessPadding {
        bits: usize,
    },
    NonzeroPadding,
}

// A refusal's number in the scope, and its figures: none, one or two.
#[derive(Clone, Copy)]
pub enum Refusal {
    Bare(u32),
    One(u32, u64),
    Two(u32, u64, u64),
}

// The same with zeros for the figures that it doesn't have. The number of what is accepted is 0.
#[derive(Clone, Copy)]
pub struct Figures {
    pub number: u32,
    pub first: u64,
    pub second: u64,
}

// The ten settings of a payload, in the order in which they are written.
#[derive(Clone, Copy)]
pub struct EmdfPayloadConfig {
    pub sample_offset: Option<u64>,
    pub duration: Option<u64>,
    pub group_id: Option<u64>,
    pub codec_data_present: u64,
    pub discard_unknown_payload: u64,
    pub payload_frame_aligned: Option<u64>,
    pub create_duplicate: Option<u64>,
    pub remove_duplicate: Option<u64>,
    pub priority: Option<u64>,
    pub processing_allowed: Option<u64>,
}

// Where a payload's parts stand, from the carrier's first bit.
#[derive(Clone, Copy)]
pub struct EmdfPayloadBitTrace {
    pub payload_id_start_bit: BitOffset,
    pub payload_id_end_bit: BitOffset,
    pub config_start_bit: BitOffset,
    pub config_end_bit: BitOffset,
    pub payload_size_start_bit: BitOffset,
    pub payload_size_end_bit: BitOffset,
    pub payload_body_start_bit: BitOffset,
    pub payload_body_end_bit: BitOffset,
}

// What a reading records of a payload.
#[derive(Clone, Copy)]
pub struct PayloadRecord {
    pub id: u64,
    pub config: EmdfPayloadConfig,
    pub trace: EmdfPayloadBitTrace,
}

// A row of a table: what is recorded of a payload, and which of the payloads of its id it is, from 1.
#[derive(Clone, Copy)]
pub struct PayloadRow {
    pub payload: PayloadRecord,
    pub ordinal: u64,
}

// Why a reading that fills a table of records is refused: as any reading is, or for want of rows.
#[derive(Clone, Copy)]
pub enum RecordsError {
    Emdf(EmdfError),
    TableTooShort { payloads: usize },
}

// Why the body of a payload is not moved.
#[derive(Clone, Copy)]
pub enum BodyError {
    Emdf(EmdfError),
    NoSuchPayload,
    ScratchTooShort { needed: ByteCount },
}

// Why no payload is found by its id and ordinal.
#[derive(Clone, Copy)]
pub enum FindError {
    Emdf(EmdfError),
    NoSuchOrdinal,
}

// The policy of a verdict: tables 55 and 56 as the original has them, or with the deviations that it lets pass.
#[derive(Clone, Copy)]
pub enum JocValidationProfile {
    EtsiStrict,
    ObservedVendorCompat,
}

// A payload's place in its container, and its settings.
#[derive(Clone, Copy)]
pub struct PlacedConfig {
    pub place: usize,
    pub config: EmdfPayloadConfig,
}

// The two payloads of table 55.
#[derive(Clone, Copy)]
pub enum JocRole {
    Oamd,
    Joc,
}

// What the profile wants of a setting.
#[derive(Clone, Copy)]
pub enum JocProfileValue {
    Absent,
    Present,
    Unsigned(u64),
}

// The settings that the profile asks, under the original's names.
#[derive(Clone, Copy)]
pub enum JocProfileField {
    SampleOffset,
    Duration,
    GroupId,
    CodecDataPresent,
    DiscardUnknownPayload,
    PayloadFrameAligned,
    CreateDuplicate,
    RemoveDuplicate,
    Priority,
    ProcessingAllowed,
}

#[derive(Clone, Copy)]
pub enum JocValidationStatus {
    NormativeCompliant,
    AcceptedWithDeviation,
}

// Why a verdict refuses. The deviations are a word of marks, the first its lowest bit, and their number.
#[derive(Clone, Copy)]
pub enum JocProfileError {
    Emdf(EmdfError),
    PayloadCount { oamd: usize, joc: usize },
    Configuration { deviations: u32, count: u32 },
}

// A carrier that a profile accepts: the places of its two payloads, the marks, and the largest number of groups of a variable
// field.
#[derive(Clone, Copy)]
pub struct ValidatedJocProfile {
    pub oamd: usize,
    pub joc: usize,
    pub deviations: u32,
    pub status: JocValidationStatus,
    pub largest_groups: usize,
}

// Why an edit is refused.
#[derive(Clone, Copy)]
pub enum EditError {
    Emdf(EmdfError),
    TrailingData,
    NoSuchPlace,
    NotWritable,
    TooLong,
    DestinationTooShort { needed: ByteCount },
}

// Why a recipe of edits is not run.
#[derive(Clone, Copy)]
pub enum RecipeError {
    BrokenChain,
    InvalidRecord,
}
