// A reader that holds its bytes: the Rust's BitReader, over the cursor of openjoc_bitio.
#![tactic(auto)]

ghost use Rattle.std.specs.Prelude.{◌≡◌};
ghost use Rattle.openjoc_bit_reader.specs.Reader.{opened, reader_remaining, result_of, reader_after, bits_read, bit_read, window_taken, aligned};

use openjoc_bitio::{BitCursor, BitError};

// A reader over the caller's bytes: the Rust's calls, each one call at its cursor. A refused one leaves it as it was.
#[derive(Clone, Copy)]
pub struct BitReader<'a> {
    pub bytes: &'a [u8],
    pub cursor: BitCursor,
}

impl<'a> BitReader<'a> {
    pub fn new(bytes: &'a [u8]) -> Self
        ensures { result ≡ opened bytes.entry }
    {
        let cursor = BitCursor::new(bytes);
        BitReader { bytes, cursor }
    }

    pub fn bits_remaining(&self) -> usize
        ensures { result ≡ reader_remaining self.now }
    {
        self.cursor.bits_remaining(self.bytes)
    }

    pub fn read_bits(&mut self, n: u8) -> Result<u64, BitError>
        ensures { (result ≡ result_of (bits_read self.old n)) × (self.new ≡ reader_after self.old (bits_read self.old n)) }
    {
        let (value, next) = self.cursor.read_bits(self.bytes, n)?;
        self.cursor = next;
        Ok(value)
    }

    pub fn read_bit(&mut self) -> Result<bool, BitError>
        ensures { (result ≡ result_of (bit_read self.old)) × (self.new ≡ reader_after self.old (bit_read self.old)) }
    {
        let (bit, next) = self.cursor.read_bit(self.bytes)?;
        self.cursor = next;
        Ok(bit)
    }

    // The next count bits as a reader of their own.
    pub fn take_bits(&mut self, count: usize) -> Result<Self, BitError>
        ensures { (result ≡ result_of (window_taken self.old count)) × (self.new ≡ reader_after self.old (window_taken self.old count)) }
    {
        let (window, next) = self.cursor.take_bits(self.bytes, count)?;
        self.cursor = next;
        Ok(BitReader {
            bytes: self.bytes,
            cursor: window,
        })
    }

    pub fn byte_align(&mut self) -> Result<(), BitError>
        ensures { (result ≡ result_of (aligned self.old)) × (self.new ≡ reader_after self.old (aligned self.old)) }
    {
        self.cursor = self.cursor.byte_align(self.bytes)?;
        Ok(())
    }
}
