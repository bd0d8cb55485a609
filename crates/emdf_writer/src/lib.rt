// Numbers and runs of bits, written into a caller's bytes at any bit position.
#![tactic(auto)]

ghost use Rattle.std.specs.Prelude.{◌≡◌, ◌+◌, ◌-◌, ◌*◌, ◌/◌, ◌%◌, ◌^◌, ◌<◌, ◌≤◌, length, get_or, leb};
ghost use Rattle.std.proofs.lemmas.List.Edits.{sets};
ghost use Rattle.openjoc_bitio.specs.Bits.{bits_value, number_bits};
ghost use Rattle.openjoc_bitio.specs.Cursor.{bit_length};
ghost use Rattle.emdf_format.specs.Syntax.{octet_bits};
ghost use Rattle.emdf_writer.specs.Writing.{bit_run, number_fits_in, run_fits_in, number_put, byte_with, bit_by_bit};

use openjoc_bitio::BitCursor;

// The width low bits of v, from bit at on, the most significant first. Answers whether they were put: nothing is where they don't
// fit, or the width is above 64.
pub fn put_number(out: &mut [u8], at: usize, width: usize, v: u64) -> bool
    ensures { (result ≡ number_fits_in out.old at width) × (octet_bits out.new ≡ number_put out.old at width v) }
{
    if 64 < width || !has_bits(out, at, width) {
        return false;
    }
    put_parts(out, at, width, v);
    true
}

// The 16 low bits of v, in the bytes at i and i + 1.
pub fn put_u16(out: &mut [u8], i: usize, v: u64)
    requires { i + 1 < length out.old }
    ensures { octet_bits out.new ≡ sets (octet_bits out.old) (i * 8) (number_bits 16 v) }
{
    out[i] = (v / 256 % 256) as u8;
    out[i + 1] = (v % 256) as u8;
}

// n bits of s from bit from on, to out from bit at on: every byte is as if they were taken one by one. Answers whether they were put:
// nothing is where they are not there, or don't fit.
pub fn copy_bits(out: &mut [u8], at: usize, s: &[u8], from: usize, n: usize) -> bool
    ensures { (result ≡ run_fits_in out.old at s.now from n) × (out.new ≡ bit_by_bit out.old at s.now from n) }
{
    if !has_bits(s, from, n) || !has_bits(out, at, n) {
        return false;
    }
    copy_run(out, at, s, from, n);
    true
}

// Whether s has n bits from bit at on.
fn has_bits(s: &[u8], at: usize, n: usize) -> bool
    ensures { result ≡ leb (at + n) (bit_length s.now) }
{
    let limit = BitCursor::new(s).end;
    at <= limit && n <= limit - at
}

// The byte b with the t bits of v in place of those above its low ones.
fn byte_with(b: u8, t: usize, below: usize, v: u64) -> u8
    requires { (t + below ≤ 8) × (v < 2 ^ t) }
    ensures { result ≡ byte_with b t below v }
{
    let x = u64::from(b);
    let above = ((x >> (t + below)) << t) + v;
    ((above << below) + x % (1 << below)) as u8
}

// The t bits of v from bit at on, which lie in one byte.
fn put_part(out: &mut [u8], at: usize, t: usize, v: u64)
    requires { (at % 8 + t ≤ 8) × (v < 2 ^ t) × (at / 8 < length out.old) }
    ensures { octet_bits out.new ≡ sets (octet_bits out.old) at (number_bits t v) }
{
    let i = at / 8;
    let below = 8 - at % 8 - t;
    out[i] = byte_with(out[i], t, below, v);
}

// The width low bits of v, from bit at on, a byte's part at a time.
fn put_parts(out: &mut [u8], at: usize, width: usize, v: u64)
    requires { (width ≤ 64) × (at + width ≤ length out.old * 8) × (at + width < 2 ^ 64) }
    ensures { octet_bits out.new ≡ sets (octet_bits out.old) at (number_bits width v) }
{
    let mut n = width;
    let mut p = at;
    while 0 < n {
        let t = n.min(8 - p % 8);
        n -= t;
        put_part(out, p, t, (v >> n) % (1 << t));
        p += t;
    }
}

// The byte at i: 0 past the end.
fn byte_at(s: &[u8], i: usize) -> u8
    ensures { result ≡ get_or s.now i 0 }
{
    s.get(i).copied().unwrap_or(0)
}

// The octet from bit p on, with zeros past the end.
fn octet_at(s: &[u8], p: usize) -> u8
    ensures { result ≡ bits_value s.now p 8 }
{
    let i = p / 8;
    openjoc_bitio::octet_in(byte_at(s, i), byte_at(s, i + 1), p % 8)
}

// The t bits of s from bit from on, to out from bit at on, where they lie in one byte.
fn copy_part(out: &mut [u8], at: usize, s: &[u8], from: usize, t: usize)
    requires { (at % 8 + t ≤ 8) × (at + t ≤ length out.old * 8) × (from + t ≤ length s.now * 8) }
    ensures { octet_bits out.new ≡ sets (octet_bits out.old) at (bit_run s.now from t) }
{
    if t == 0 {
        return;
    }
    put_part(out, at, t, u64::from(octet_at(s, from)) >> (8 - t));
}

// n bytes of s from byte j on, to out from byte i on. copy_from_slice would call memmove, which a host need not have.
fn copy_bytes(out: &mut [u8], i: usize, s: &[u8], j: usize, n: usize)
    requires { (i + n ≤ length out.old) × (j + n ≤ length s.now) }
    ensures { octet_bits out.new ≡ sets (octet_bits out.old) (i * 8) (bit_run s.now (j * 8) (n * 8)) }
{
    for moved in 0..n {
        out[i + moved] = s[j + moved];
    }
}

// n octets of s from phase bits into its byte j on, to out from byte i on.
fn copy_shifted(out: &mut [u8], i: usize, s: &[u8], j: usize, phase: usize, n: usize)
    requires { (phase < 8) × (i + n ≤ length out.old) × (j + n < length s.now) }
    ensures { octet_bits out.new ≡ sets (octet_bits out.old) (i * 8) (bit_run s.now (j * 8 + phase) (n * 8)) }
{
    for k in 0..n {
        out[i + k] = openjoc_bitio::octet_in(s[j + k], s[j + k + 1], phase);
    }
}

// n octets of s from bit from on, to out from byte i on.
pub fn copy_octets(out: &mut [u8], i: usize, s: &[u8], from: usize, n: usize)
    requires { (i + n ≤ length out.old) × (from + n * 8 ≤ length s.now * 8) }
    ensures { octet_bits out.new ≡ sets (octet_bits out.old) (i * 8) (bit_run s.now from (n * 8)) }
{
    let j = from / 8;
    let phase = from % 8;
    if phase == 0 {
        copy_bytes(out, i, s, j, n);
        return;
    }
    copy_shifted(out, i, s, j, phase, n);
}

// The n bits of s from bit from on, to out from bit at on: up to a byte of out, its whole bytes, and the others.
fn copy_run(out: &mut [u8], at: usize, s: &[u8], from: usize, n: usize)
    requires { (at + n ≤ length out.old * 8) × (from + n ≤ length s.now * 8) × (at + n < 2 ^ 64) × (from + n < 2 ^ 64) }
    ensures { octet_bits out.new ≡ sets (octet_bits out.old) at (bit_run s.now from n) }
{
    let head = n.min((8 - at % 8) % 8);
    copy_part(out, at, s, from, head);
    let m = (n - head) / 8;
    let i = (at + head) / 8;
    copy_octets(out, i, s, from + head, m);
    let done = head + m * 8;
    copy_part(out, at + done, s, from + done, n - done);
}
