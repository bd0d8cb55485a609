// Each refusal's number in the scope, and its figures: a new refusal is a line here and a line in its definition.
#![tactic(auto)]

ghost use Rattle.std.specs.Prelude.{◌≡◌};
ghost use Rattle.emdf_format.specs.declared.Refusal.{Refusal};
ghost use Rattle.emdf_format.specs.Refusals.{refusal_of, records_refusal, profile_refusal, body_refusal, find_refusal, edit_refusal, recipe_refusal, figures_of};

use emdf_format::{
    BodyError, EditError, EmdfError, Figures, FindError, JocProfileError, RecipeError,
    RecordsError, Refusal, TruncatedPart,
};
use openjoc_bitio::BitError;

// What a call is refused for: a number in the scope, and its figures.
pub trait Numbered: Sized {
    ghost refusal: { Self → Refusal };

    fn refusal(self) -> Refusal
        ensures { result ≡ refusal self };

    fn figures(self) -> Figures
        ensures { result ≡ figures_of (refusal self) }
    {
        figures_of(self.refusal())
    }
}

impl Numbered for EmdfError {
    ghost refusal = { refusal_of };

    fn refusal(self) -> Refusal {
        match self {
            EmdfError::TruncatedContainer {
                part: TruncatedPart::Header,
                declared,
                available,
            } => Refusal::Two(21, declared as u64, available as u64),
            EmdfError::TruncatedContainer {
                part: TruncatedPart::Body,
                declared,
                available,
            } => Refusal::Two(1, declared as u64, available as u64),
            EmdfError::InvalidSyncword { actual } => Refusal::One(2, actual as u64),
            EmdfError::Bit(
                BitError::EndOfInput {
                    requested,
                    remaining,
                },
            ) => Refusal::Two(3, requested as u64, remaining as u64),
            EmdfError::Bit(BitError::InvalidWidth { width }) => Refusal::One(4, width as u64),
            EmdfError::InvalidVariableBits { width, limit } => Refusal::Two(
                5,
                width as u64,
                limit as u64,
            ),
            EmdfError::VariableBitsGroupLimit { width, limit } => Refusal::Two(
                6,
                width as u64,
                limit as u64,
            ),
            EmdfError::ValueOverflow => Refusal::Bare(7),
            EmdfError::UnsupportedVersion { version } => Refusal::One(8, version),
            EmdfError::NonzeroReservedData => Refusal::Bare(9),
            EmdfError::ReservedPrimaryProtectionLength => Refusal::Bare(10),
            EmdfError::ExcessPadding { bits } => Refusal::One(11, bits as u64),
            EmdfError::NonzeroPadding => Refusal::Bare(12),
        }
    }
}

impl Numbered for RecordsError {
    ghost refusal = { records_refusal };

    fn refusal(self) -> Refusal {
        match self {
            RecordsError::Emdf(inner) => inner.refusal(),
            RecordsError::TableTooShort { payloads } => Refusal::One(13, payloads as u64),
        }
    }
}

impl Numbered for JocProfileError {
    ghost refusal = { profile_refusal };

    fn refusal(self) -> Refusal {
        match self {
            JocProfileError::Emdf(inner) => inner.refusal(),
            JocProfileError::PayloadCount { oamd, joc } => Refusal::Two(
                14,
                oamd as u64,
                joc as u64,
            ),
            JocProfileError::Configuration { deviations, count } => {
                Refusal::Two(15, deviations as u64, count as u64)
            }
        }
    }
}

impl Numbered for BodyError {
    ghost refusal = { body_refusal };

    fn refusal(self) -> Refusal {
        match self {
            BodyError::Emdf(inner) => inner.refusal(),
            BodyError::NoSuchPayload => Refusal::Bare(16),
            BodyError::ScratchTooShort { needed } => Refusal::One(19, needed.0 as u64),
        }
    }
}

impl Numbered for FindError {
    ghost refusal = { find_refusal };

    fn refusal(self) -> Refusal {
        match self {
            FindError::Emdf(inner) => inner.refusal(),
            FindError::NoSuchOrdinal => Refusal::Bare(24),
        }
    }
}

impl Numbered for EditError {
    ghost refusal = { edit_refusal };

    fn refusal(self) -> Refusal {
        match self {
            EditError::Emdf(inner) => inner.refusal(),
            EditError::NoSuchPlace => Refusal::Bare(16),
            EditError::NotWritable => Refusal::Bare(17),
            EditError::TooLong => Refusal::Bare(18),
            EditError::DestinationTooShort { needed } => Refusal::One(19, needed.0 as u64),
            EditError::TrailingData => Refusal::Bare(20),
        }
    }
}

impl Numbered for RecipeError {
    ghost refusal = { recipe_refusal };

    fn refusal(self) -> Refusal {
        match self {
            RecipeError::BrokenChain => Refusal::Bare(22),
            RecipeError::InvalidRecord => Refusal::Bare(23),
        }
    }
}

// The number, and two figures.
pub fn figures_of(refusal: Refusal) -> Figures
    ensures { result ≡ figures_of refusal }
{
    match refusal {
        Refusal::Bare(number) => Figures {
            number,
            first: 0,
            second: 0,
        },
        Refusal::One(number, first) => Figures {
            number,
            first,
            second: 0,
        },
        Refusal::Two(number, first, second) => Figures {
            number,
            first,
            second,
        },
    }
}
