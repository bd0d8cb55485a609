// Fields: bits, variable fields, fields with an escape, octets. Each answers what its reader in emdf_format finds.
#![tactic(auto)]

ghost use Rattle.std.specs.Prelude.{◌≡◌, ◌+◌, ◌-◌, ◌*◌, ◌^◌, ◌<◌};
ghost use Rattle.emdf_format.specs.Syntax.{escape as ones};
ghost use Rattle.emdf_format.specs.Reader.{bits, groups_from, variable_bits, extended_value, octets};
ghost use Rattle.emdf_fields.specs.Fields.{field_answer, variable_answer, start_answer, one_group, group_of, group_rest, count_answer};

use emdf_format::{EmdfError, MAX_EXTENDED_GROUPS};
use openjoc_bitio::{BitCursor, BitError};

// Why a field is refused, and the cursor after the last bit that was read.
#[derive(Clone, Copy)]
pub struct FieldError {
    pub why: EmdfError,
    pub cursor: BitCursor,
}

impl From<FieldError> for EmdfError {
    ghost from_gives = { λ e why. why ≡ e.why };

    fn from(e: FieldError) -> EmdfError {
        e.why
    }
}

// One group of a variable field: the last, with the field's value, or one with another after it, whose sum starts there.
#[derive(Clone, Copy)]
enum GroupRead {
    Last(u64),
    More(u64),
}

// The next n bits.
pub fn read_bits(s: &[u8], c: BitCursor, n: u8) -> Result<(u64, BitCursor), FieldError>
    ensures { result ≡ field_answer c.end (bits n s.now c.end c.position) }
{
    match c.read_bits(s, n) {
        Ok((value, next)) => Ok((value, next)),
        Err(why) => Err(FieldError {
            why: EmdfError::Bit(why),
            cursor: c,
        }),
    }
}

// A variable field: groups of width value bits and a more bit, at most limit of them; and how many they are.
pub fn variable_bits(
    s: &[u8],
    c: BitCursor,
    width: u8,
    limit: u8,
) -> Result<(u64, usize, BitCursor), FieldError>
    ensures { result ≡ variable_answer width c.end (variable_bits width limit s.now c.end c.position) }
{
    let start = c.position;
    let (value, next) = variable_field(s, c, width, limit)?;
    let groups = (next.position - start) / (width as usize + 1);
    Ok((value, groups, next))
}

// The same as a field, for callers who know the groups from the value.
pub fn variable_field(
    s: &[u8],
    c: BitCursor,
    width: u8,
    limit: u8,
) -> Result<(u64, BitCursor), FieldError>
    ensures { result ≡ field_answer c.end (variable_bits width limit s.now c.end c.position) }
{
    if width == 0 || 63 < width || limit == 0 {
        return Err(FieldError {
            why: EmdfError::InvalidVariableBits { width, limit },
            cursor: c,
        });
    }
    groups(s, c, width, limit)
}

fn groups(s: &[u8], c: BitCursor, width: u8, limit: u8) -> Result<(u64, BitCursor), FieldError>
    requires { (0 < width) × (width < 64) × (0 < limit) }
    ensures { result ≡ field_answer c.end (groups_from width limit limit 0 s.now c.end c.position) }
{
    let mut start: u64 = 0;
    let mut at = c;
    let mut left = limit;
    loop {
        let turn = GroupTurn {
            width,
            limit,
            left,
            start,
        };
        let (found, next) = turn.group(s, at)?;
        match found {
            GroupRead::Last(value) => return Ok((value, next)),
            GroupRead::More(sum) => {
                start = sum;
                at = next;
                left -= 1;
            }
        }
    }
}

// A group that is to be read: its width, of the field's limit how many are left with it, and the sum that it adds to.
#[derive(Clone, Copy)]
struct GroupTurn {
    width: u8,
    limit: u8,
    left: u8,
    start: u64,
    ghost in_range: { (0 < width) × (width < 64) × (0 < left) },
}

impl GroupTurn {
    // From a word, where its bits are in one and are there.
    fn group(self, s: &[u8], c: BitCursor) -> Result<(GroupRead, BitCursor), FieldError>
        ensures { result ≡ field_answer c.end (one_group self.width self.limit (self.left - 1) self.start s.now c.end c.position) }
    {
        let position = c.position;
        let end = c.end;
        let w = self.width as usize;
        if w <= 56 && w < (BitCursor { position, end }).bits_remaining(s) {
            let x = openjoc_bitio::window_at(s, position);
            return self.group_of(x >> (64 - w), (x >> (63 - w)) % 2, position + w, end);
        }
        self.group_by_fields(s, BitCursor { position, end })
    }

    // The same by two reads.
    fn group_by_fields(self, s: &[u8], c: BitCursor) -> Result<(GroupRead, BitCursor), FieldError>
        ensures { result ≡ field_answer c.end (one_group self.width self.limit (self.left - 1) self.start s.now c.end c.position) }
    {
        let start = self.start;
        let (value, c1) = read_bits(s, c, self.width)?;
        if 0xffff_ffff_ffff_ffff - start < value {
            return Err(FieldError {
                why: EmdfError::ValueOverflow,
                cursor: c1,
            });
        }
        let (more, c2) = read_bits(s, c1, 1)?;
        self.group_rest(start + value, more, c2.position, c2.end)
    }

    // Of this value, which ends at a position, and of this more bit after it.
    fn group_of(
        self,
        value: u64,
        more: u64,
        position: usize,
        end: usize,
    ) -> Result<(GroupRead, BitCursor), FieldError>
        requires { position < end }
        ensures { result ≡ group_of self.width self.limit (self.left - 1) self.start value more end position }
    {
        let start = self.start;
        if 0xffff_ffff_ffff_ffff - start < value {
            return Err(FieldError {
                why: EmdfError::ValueOverflow,
                cursor: BitCursor { position, end },
            });
        }
        self.group_rest(start + value, more, position + 1, end)
    }

    // One that makes this sum, past its more bit.
    fn group_rest(
        self,
        sum: u64,
        more: u64,
        position: usize,
        end: usize,
    ) -> Result<(GroupRead, BitCursor), FieldError>
        ensures { result ≡ group_rest self.width self.limit (self.left - 1) sum more end position }
    {
        let width = self.width;
        let limit = self.limit;
        let left = self.left;
        let next = BitCursor { position, end };
        if more == 0 {
            return Ok((GroupRead::Last(sum), next));
        }
        if left == 1 {
            return Err(FieldError {
                why: EmdfError::VariableBitsGroupLimit { width, limit },
                cursor: next,
            });
        }
        let Some(start) = next_start(sum, width) else {
            return Err(FieldError {
                why: EmdfError::ValueOverflow,
                cursor: next,
            });
        };
        Ok((GroupRead::More(start), next))
    }
}

// Where the next group's sum starts: value * 2^width + 2^width, in 64 bits.
fn next_start(value: u64, width: u8) -> Option<u64>
    requires { (0 < width) × (width < 64) }
    ensures { result ≡ start_answer (value * 2 ^ width + 2 ^ width) }
{
    let w = width as usize;
    let most = 0xffff_ffff_ffff_ffff >> w;
    if most <= value {
        return None;
    }
    Some((value + 1) << w)
}

// A field with an escape, to which a variable field is added; the escape is all ones.
pub fn extended_value(
    s: &[u8],
    c: BitCursor,
    escape: u64,
    width: u8,
) -> Result<(u64, BitCursor), FieldError>
    requires { (width < 64) × (escape ≡ ones width) }
    ensures { result ≡ field_answer c.end (extended_value width s.now c.end c.position) }
{
    let (base, c1) = read_bits(s, c, width)?;
    if base != escape {
        return Ok((base, c1));
    }
    let (value, c2) = variable_field(s, c1, width, MAX_EXTENDED_GROUPS)?;
    if 0xffff_ffff_ffff_ffff - base < value {
        return Err(FieldError {
            why: EmdfError::ValueOverflow,
            cursor: c2,
        });
    }
    Ok((base + value, c2))
}

// Past n octets in one step. A missing one is refused as its own read would be.
pub fn skip_octets(s: &[u8], c: BitCursor, n: u64) -> Result<(usize, BitCursor), EmdfError>
    ensures { result ≡ count_answer c.end (octets n s.now c.end c.position) }
{
    let remaining = c.bits_remaining(s);
    let there = (remaining / 8) as u64;
    if there < n {
        return Err(EmdfError::Bit(BitError::EndOfInput {
            requested: 8,
            remaining: remaining % 8,
        }));
    }
    let position = c.position + (n as usize) * 8;
    let end = c.end;
    Ok((n as usize, BitCursor { position, end }))
}
