// The answers to a C host as numbers. docs/HOST.md has each byte form.
#![tactic(auto)]

ghost use Rattle.std.specs.Prelude.{◌≡◌, [], ◌∷◌, length, get_or, MatchResult};
ghost use Rattle.emdf_format.specs.Refusals.{figures_of};
ghost use Rattle.emdf_format.specs.declared.Figures.{Figures};
ghost use Rattle.emdf_answers.specs.Bits.{accepted, refused_at, bits_reply, bit_reply, window_reply, align_reply, figures_at};
ghost use Rattle.emdf_answers.specs.Fields.{field_reply};
ghost use Rattle.emdf_answers.specs.Replies.{padded};
ghost use Rattle.emdf_answers.specs.Carriers.{parsed_words, optional_words, config_words, trace_words, class_reply, move_figures, find_figures};
ghost use Rattle.emdf_answers.specs.Verdict.{profile_of, verdict_reply, status_word};
ghost use Rattle.emdf_answers.specs.Edits.{edited_figures};

use emdf_fields::FieldError;
use emdf_format::{
    BodyError, EditError, EmdfError, EmdfPayloadBitTrace, EmdfPayloadConfig, Figures, FindError,
    JocProfileError, JocValidationProfile, JocValidationStatus, ValidatedJocProfile,
};
use emdf_refusals::Numbered;
use openjoc_bitio::{BitCursor, BitError, BitOffset, ByteCount};
use openjoc_emdf::{CarrierClassification, ParsedEmdf};

// An answer of the bit calls: its number, its value or its two figures, the cursor after it, and the window taken.
#[derive(Clone, Copy)]
pub struct BitReply {
    pub number: u32,
    pub first: u64,
    pub second: u64,
    pub cursor: BitCursor,
    pub window: BitCursor,
}

// The same of a variable field, and how many groups it has.
#[derive(Clone, Copy)]
pub struct FieldReply {
    pub reply: BitReply,
    pub groups: u64,
}

#[tactic(auto, unfolding(crate::specs::Fields::field_reply))]
pub fn field_reply(answer: Result<(u64, usize, BitCursor), FieldError>) -> FieldReply
    ensures { result ≡ field_reply answer }
{
    match answer {
        Ok((value, groups, next)) => FieldReply {
            reply: accepted_at(next, value),
            groups: groups as u64,
        },
        Err(FieldError { why, cursor }) => FieldReply {
            reply: refused_at(cursor, why),
            groups: 0,
        },
    }
}

#[tactic(auto, unfolding(crate::specs::Bits::bits_reply))]
pub fn bits_reply(cursor: BitCursor, answer: Result<(u64, BitCursor), BitError>) -> BitReply
    ensures { result ≡ bits_reply cursor answer }
{
    match answer {
        Ok((value, next)) => accepted_at(next, value),
        Err(why) => refused_at(cursor, EmdfError::Bit(why)),
    }
}

#[tactic(auto, unfolding(crate::specs::Bits::bits_reply, crate::specs::Bits::bit_reply))]
pub fn bit_reply(cursor: BitCursor, answer: Result<(bool, BitCursor), BitError>) -> BitReply
    ensures { result ≡ bit_reply cursor answer }
{
    bits_reply(cursor, answer.map(|(bit, next)| (u64::from(bit), next)))
}

#[tactic(auto, unfolding(crate::specs::Bits::window_reply))]
pub fn window_reply(cursor: BitCursor, answer: Result<(BitCursor, BitCursor), BitError>) -> BitReply
    ensures { result ≡ window_reply cursor answer }
{
    match answer {
        Ok((window, next)) => BitReply {
            window,
            ..accepted_at(next, 0)
        },
        Err(why) => refused_at(cursor, EmdfError::Bit(why)),
    }
}

#[tactic(auto, unfolding(crate::specs::Bits::bits_reply, crate::specs::Bits::align_reply))]
pub fn align_reply(cursor: BitCursor, answer: Result<BitCursor, BitError>) -> BitReply
    ensures { result ≡ align_reply cursor answer }
{
    bits_reply(cursor, answer.map(|next| (0, next)))
}

pub fn accepted_at(cursor: BitCursor, value: u64) -> BitReply
    ensures { result ≡ accepted cursor value }
{
    figures_at(cursor, accepted_figures(value, 0))
}

// Two figures of what is accepted.
fn accepted_figures(first: u64, second: u64) -> Figures
    ensures { result ≡ record { number = 0; first = first; second = second } }
{
    Figures {
        number: 0,
        first,
        second,
    }
}

#[tactic(auto, unfolding(crate::specs::Bits::refused_at))]
fn refused_at(cursor: BitCursor, why: EmdfError) -> BitReply
    ensures { result ≡ refused_at cursor why }
{
    figures_at(cursor, why.figures())
}

fn figures_at(cursor: BitCursor, f: Figures) -> BitReply
    ensures { result ≡ figures_at cursor f }
{
    BitReply {
        number: f.number,
        first: f.first,
        second: f.second,
        cursor,
        window: BitCursor {
            position: 0,
            end: 0,
        },
    }
}

// The class, and ten numbers.
#[tactic(auto, unfolding(crate::specs::Carriers::class_reply, crate::specs::Replies::padded))]
pub fn class_words(class: CarrierClassification) -> [u64; 11]
    ensures { result ≡ (class_reply class).numbers }
{
    match class {
        CarrierClassification::NonEmdf => [0; 11],
        CarrierClassification::Parsed(parsed) => with_class(1, parsed_words(parsed)),
        CarrierClassification::TrailingData {
            container_bytes,
            carrier_bytes,
        } => with_class(
            2,
            figure_words(accepted_figures(container_bytes.0 as u64, carrier_bytes.0 as u64)),
        ),
        CarrierClassification::Malformed(why) => with_class(3, figure_words(why.figures())),
    }
}

#[tactic(auto, unfolding(crate::specs::Carriers::class_reply))]
pub fn class_number(class: CarrierClassification) -> u32
    ensures { result ≡ (class_reply class).number }
{
    match class {
        CarrierClassification::Malformed(why) => why.figures().number,
        _ => 0,
    }
}

fn with_class(class: u64, w: [u64; 10]) -> [u64; 11]
    ensures { result ≡ class ∷ w }
{
    let mut words = [class; 11];
    words[1..].copy_from_slice(&w);
    words
}

// An accepted reading's ten numbers.
pub fn parsed_words(p: ParsedEmdf) -> [u64; 10]
    ensures { result ≡ parsed_words p }
{
    let c = p.container;
    let primary = c.protection.primary;
    let secondary = c.protection.secondary;
    [
        p.bytes_consumed.0 as u64,
        c.key_id,
        c.payloads as u64,
        primary.length.0 as u64,
        primary.high,
        primary.low,
        secondary.length.0 as u64,
        secondary.high,
        secondary.low,
        c.largest_groups as u64,
    ]
}

// Two figures, in the place of ten numbers.
#[tactic(auto, unfolding(crate::specs::Replies::padded))]
pub fn figure_words(f: Figures) -> [u64; 10]
    ensures { result ≡ padded 10 (f.first ∷ f.second ∷ []) }
{
    [f.first, f.second, 0, 0, 0, 0, 0, 0, 0, 0]
}

// The ten settings as 18 numbers, in the order in which they are written.
pub fn config_words(t: EmdfPayloadConfig) -> [u64; 18]
    ensures { result ≡ config_words t }
{
    [
        presence(t.sample_offset),
        t.sample_offset.unwrap_or(0),
        presence(t.duration),
        t.duration.unwrap_or(0),
        presence(t.group_id),
        t.group_id.unwrap_or(0),
        t.codec_data_present,
        t.discard_unknown_payload,
        presence(t.payload_frame_aligned),
        t.payload_frame_aligned.unwrap_or(0),
        presence(t.create_duplicate),
        t.create_duplicate.unwrap_or(0),
        presence(t.remove_duplicate),
        t.remove_duplicate.unwrap_or(0),
        presence(t.priority),
        t.priority.unwrap_or(0),
        presence(t.processing_allowed),
        t.processing_allowed.unwrap_or(0),
    ]
}

#[tactic(auto, unfolding(crate::specs::Carriers::optional_words))]
fn presence(o: Option<u64>) -> u64
    ensures { result ≡ get_or (optional_words o) 0 0 }
{
    u64::from(o.is_some())
}

pub fn trace_words(t: EmdfPayloadBitTrace) -> [u64; 8]
    ensures { result ≡ trace_words t }
{
    [
        t.payload_id_start_bit.0 as u64,
        t.payload_id_end_bit.0 as u64,
        t.config_start_bit.0 as u64,
        t.config_end_bit.0 as u64,
        t.payload_size_start_bit.0 as u64,
        t.payload_size_end_bit.0 as u64,
        t.payload_body_start_bit.0 as u64,
        t.payload_body_end_bit.0 as u64,
    ]
}

pub fn find_figures(found: Result<usize, FindError>) -> Figures
    ensures { result ≡ find_figures found }
{
    answer_figures(found.map(|place| (place as u64, 0)))
}

#[tactic(auto, unfolding(crate::specs::Carriers::move_figures))]
pub fn move_figures(moved: Result<(BitOffset, ByteCount), BodyError>) -> Figures
    ensures { result ≡ move_figures moved }
{
    answer_figures(moved.map(|(start, length)| (start.0 as u64, length.0 as u64)))
}

#[tactic(auto, unfolding(crate::specs::Edits::edited_figures))]
pub fn edited_figures(edited: Result<ByteCount, EditError>) -> Figures
    ensures { result ≡ edited_figures edited }
{
    answer_figures(edited.map(|length| (length.0 as u64, 0)))
}

// Two figures of what is accepted, or the refusal's.
pub fn answer_figures<E: Numbered>(answer: Result<(u64, u64), E>) -> Figures
    ensures { MatchResult answer (λ (first, second). result ≡ record { number = 0; first = first; second = second })
        (λ why. result ≡ figures_of (E.refusal why)) }
{
    match answer {
        Ok((first, second)) => accepted_figures(first, second),
        Err(why) => why.figures(),
    }
}

#[tactic(auto, unfolding(crate::specs::Verdict::profile_of))]
pub fn profile_of(number: u32) -> JocValidationProfile
    ensures { result ≡ profile_of number }
{
    match number {
        0 => JocValidationProfile::EtsiStrict,
        _ => JocValidationProfile::ObservedVendorCompat,
    }
}

// Both places, the marks, whether any is set and the largest number of groups, or a refusal's figures.
#[tactic(auto, unfolding(crate::specs::Verdict::verdict_reply, crate::specs::Replies::padded))]
pub fn verdict_words(judged: Result<ValidatedJocProfile, JocProfileError>) -> [u64; 5]
    ensures { result ≡ (verdict_reply judged).numbers }
{
    match judged {
        Ok(v) => [
            v.oamd as u64,
            v.joc as u64,
            v.deviations as u64,
            status_word(v.status),
            v.largest_groups as u64,
        ],
        Err(why) => {
            let f = why.figures();
            [f.first, f.second, 0, 0, 0]
        }
    }
}

#[tactic(auto, unfolding(crate::specs::Verdict::verdict_reply))]
pub fn verdict_number(judged: Result<ValidatedJocProfile, JocProfileError>) -> u32
    ensures { result ≡ (verdict_reply judged).number }
{
    match judged {
        Ok(_) => 0,
        Err(why) => why.figures().number,
    }
}

fn status_word(status: JocValidationStatus) -> u64
    ensures { result ≡ status_word status }
{
    match status {
        JocValidationStatus::NormativeCompliant => 0,
        JocValidationStatus::AcceptedWithDeviation => 1,
    }
}
