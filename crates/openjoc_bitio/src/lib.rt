// Checked, most-significant-bit-first reading of a bounded bit slice: the port of openjoc-bitio.
#![tactic(auto)]

ghost use Rattle.std.specs.Prelude.{◌≡◌, min, ◌+◌, ◌-◌, ◌*◌, ◌/◌, ◌%◌, ◌^◌, ◌<◌, ◌≤◌, length};
ghost use Rattle.openjoc_bitio.specs.Bits.{bits_value, window_at};
ghost use Rattle.openjoc_bitio.specs.Cursor.{bit_length, whole_slice, bits_remaining, read_bits, read_bit, take_bits, byte_align, bits_past};

// A bit's place in a carrier, counted from the carrier's first bit.
#[derive(Clone, Copy)]
pub struct BitOffset(pub usize);

// A number of bytes.
#[derive(Clone, Copy)]
pub struct ByteCount(pub usize);

// Why a read is refused. The Rust's third case, LengthOverflow, can't arise: docs/DIFFERENCES.md.
#[derive(Clone, Copy)]
pub enum BitError {
    // No u64 holds a field of this width.
    InvalidWidth { width: u8 },
    // The whole field is not there.
    EndOfInput { requested: usize, remaining: usize },
}

// A place in a slice that the caller holds. Both count bits from the slice's first: the next one to read, and the one
// past the last. Any two numbers are a cursor: one that doesn't lie in the slice has no bits left.
#[derive(Clone, Copy)]
pub struct BitCursor {
    pub position: usize,
    pub end: usize,
}

impl BitCursor {
    // All of s.
    pub fn new(s: &[u8]) -> Self
        ensures { result ≡ whole_slice s.now }
    {
        BitCursor {
            position: 0,
            end: bit_length(s),
        }
    }

    pub fn bits_remaining(self, s: &[u8]) -> usize
        ensures { result ≡ bits_remaining s.now self }
    {
        if bit_length(s) < self.end {
            return 0;
        }
        self.end.saturating_sub(self.position)
    }

    // The next n bits, at most 64 of them.
    pub fn read_bits(self, s: &[u8], n: u8) -> Result<(u64, Self), BitError>
        ensures { result ≡ read_bits s.now self n }
    {
        if 64 < n {
            return Err(BitError::InvalidWidth { width: n });
        }
        let width = usize::from(n);
        let next = self.past(s, width)?;
        Ok((value_at(s, self.position, width), next))
    }

    pub fn read_bit(self, s: &[u8]) -> Result<(bool, Self), BitError>
        ensures { result ≡ read_bit s.now self }
    {
        let next = self.past(s, 1)?;
        let bit = (s[self.position / 8] >> (7 - self.position % 8)) % 2;
        Ok((bit != 0, next))
    }

    // The next count bits as a cursor of their own.
    pub fn take_bits(self, s: &[u8], count: usize) -> Result<(Self, Self), BitError>
        ensures { result ≡ take_bits s.now self count }
    {
        let next = self.past(s, count)?;
        let window = BitCursor {
            position: self.position,
            end: next.position,
        };
        Ok((window, next))
    }

    // To the next byte of the slice, past bits that are not looked at.
    pub fn byte_align(self, s: &[u8]) -> Result<Self, BitError>
        ensures { result ≡ byte_align s.now self }
    {
        let discarded = (8 - self.position % 8) % 8;
        self.past(s, discarded)
    }

    // Past the next n bits, where so many are left.
    fn past(self, s: &[u8], n: usize) -> Result<Self, BitError>
        ensures { result ≡ bits_past s.now self n }
    {
        let remaining = self.bits_remaining(s);
        if remaining < n {
            return Err(BitError::EndOfInput {
                requested: n,
                remaining,
            });
        }
        Ok(BitCursor {
            position: self.position + n,
            end: self.end,
        })
    }
}

// The bits of s that a cursor can count: none where there are 2^64 or more.
fn bit_length(s: &[u8]) -> usize
    ensures { result ≡ bit_length s.now }
{
    s.len().checked_mul(8).unwrap_or(0)
}

// The value of the w bits from position p.
fn value_at(s: &[u8], p: usize, w: usize) -> u64
    requires { (w ≤ 64) × (w ≤ length s.now * 8 - p) × (p + w < 2 ^ 64) }
    ensures { result ≡ bits_value s.now p w }
{
    if w == 0 {
        return 0;
    }
    if w <= 57 {
        return window_at(s, p) >> (64 - w);
    }
    // A window may hold no more than 57 bits.
    let low = w - 32;
    ((window_at(s, p) >> 32) << low) + (window_at(s, p + 32) >> (64 - low))
}

// The bits from position p to the end of its octet and of the seven after it, at least 57, at the top of a word; those
// past the slice are 0.
pub fn window_at(s: &[u8], p: usize) -> u64
    ensures { result ≡ window_at s.now p }
{
    let i = p / 8;
    if s.len() < i + 8 {
        return last_window(s, p);
    }
    octets_at(s, i) << (p % 8)
}

// The same where it reaches past the slice.
fn last_window(s: &[u8], p: usize) -> u64
    requires { length s.now < p / 8 + 8 }
    ensures { result ≡ window_at s.now p }
{
    let i = p / 8;
    let n = s.len();
    if n <= i {
        return 0;
    }
    if n < 8 {
        return (few_octets(&s[i..]) << ((8 + i - n) * 8)) << (p % 8);
    }
    octets_at(s, n - 8) << (p - (n - 8) * 8)
}

// Fewer than eight octets, as a number.
fn few_octets(s: &[u8]) -> u64
    requires { length s.now < 8 }
    ensures { result ≡ bits_value s.now 0 (length s.now * 8) }
{
    let mut value = 0;
    for octet in s {
        value = (value << 8) + u64::from(*octet);
    }
    value
}

// The eight octets from index i on, as a number. They are taken in the machine's order and turned round, which compiles to
// one load; from_be_bytes compiles to eight.
pub fn octets_at(s: &[u8], i: usize) -> u64
    requires { i + 8 ≤ length s.now }
    ensures { result ≡ bits_value s.now (i * 8) 64 }
{
    u64::from_le_bytes([
        s[i],
        s[i + 1],
        s[i + 2],
        s[i + 3],
        s[i + 4],
        s[i + 5],
        s[i + 6],
        s[i + 7],
    ])
    .swap_bytes()
}

// The octet that starts phase bits into the byte a and ends in the byte b.
pub fn octet_in(a: u8, b: u8, phase: usize) -> u8
    requires { phase < 8 }
    ensures { result ≡ (a * 256 + b) / 2 ^ (8 - phase) % 256 }
{
    let pair = u16::from(a) * 256 + u16::from(b);
    ((pair >> (8 - phase)) % 256) as u8
}
