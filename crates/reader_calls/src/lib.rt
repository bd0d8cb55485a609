// Each call of a BitReader, made on a reader that holds these bytes and stands at this cursor: for callers with plain
// parameters. A call that may move answers its result beside the cursor that the reader is left at.
#![tactic(auto)]

ghost use Rattle.std.specs.Prelude.{◌≡◌};
ghost use Rattle.openjoc_bitio.specs.Cursor.{whole_slice, bits_remaining, read_bits, read_bit, take_bits, byte_align};
ghost use Rattle.openjoc_bit_reader.specs.Reader.{result_of, cursor_after, moved};

use openjoc_bit_reader::BitReader;
use openjoc_bitio::{BitCursor, BitError};

pub fn new(s: &[u8]) -> BitCursor
    ensures { result ≡ whole_slice s.now }
{
    let reader = BitReader::new(s);
    reader.cursor
}

pub fn bits_remaining(s: &[u8], cursor: BitCursor) -> usize
    ensures { result ≡ bits_remaining s.now cursor }
{
    let reader = BitReader { bytes: s, cursor };
    reader.bits_remaining()
}

pub fn read_bits(s: &[u8], cursor: BitCursor, n: u8) -> (Result<u64, BitError>, BitCursor)
    ensures { (result.0 ≡ result_of (read_bits s.now cursor n)) × (result.1 ≡ cursor_after cursor (read_bits s.now cursor n)) }
{
    let mut reader = BitReader { bytes: s, cursor };
    let result = reader.read_bits(n);
    (result, reader.cursor)
}

pub fn read_bit(s: &[u8], cursor: BitCursor) -> (Result<bool, BitError>, BitCursor)
    ensures { (result.0 ≡ result_of (read_bit s.now cursor)) × (result.1 ≡ cursor_after cursor (read_bit s.now cursor)) }
{
    let mut reader = BitReader { bytes: s, cursor };
    let result = reader.read_bit();
    (result, reader.cursor)
}

// The window as its cursor.
pub fn take_bits(
    s: &[u8],
    cursor: BitCursor,
    count: usize,
) -> (Result<BitCursor, BitError>, BitCursor)
    ensures { (result.0 ≡ result_of (take_bits s.now cursor count)) × (result.1 ≡ cursor_after cursor (take_bits s.now cursor count)) }
{
    let mut reader = BitReader { bytes: s, cursor };
    let result = reader.take_bits(count).map(|window| window.cursor);
    (result, reader.cursor)
}

pub fn byte_align(s: &[u8], cursor: BitCursor) -> (Result<(), BitError>, BitCursor)
    ensures { (result.0 ≡ result_of (moved (byte_align s.now cursor))) × (result.1 ≡ cursor_after cursor (moved (byte_align s.now cursor))) }
{
    let mut reader = BitReader { bytes: s, cursor };
    let result = reader.byte_align();
    (result, reader.cursor)
}
