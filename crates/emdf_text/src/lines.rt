// Text in a buffer: each function puts it at index at, and answers the index at which it ends.
// No `write!`: it promises its text of an Ok alone, and here all that has room is put.
ghost use Rattle.std.specs.Prelude.{◌+◌, ◌*◌, ◌≤◌, ◌<◌, ◌≡◌, [], ◌∷◌, length, leb};
ghost use Rattle.emdf_text.specs.Lines.{decimal, spaced, line, Printed, PrintedWithin};

use itoa::Buffer;

// A word, and numbers after it, where 21 bytes a number have room; else nothing.
pub fn put_line(out: &mut [u8], at: usize, word: &[u8], numbers: &[u64]) -> usize
    ensures { PrintedWithin (length word.now + 21 * length numbers.now + 1) out.old at (line word.now numbers.now) out.new result }
{
    if !has_room(out.len(), at, word.len(), numbers.len()) {
        return at;
    }
    let end = put_bytes(out, at, word);
    put_numbers(out, end, numbers)
}

// Room for a word and numbers, without a sum that could wrap.
fn has_room(size: usize, at: usize, word: usize, numbers: usize) -> bool
    ensures { result ≡ leb (at + (word + 21 * numbers + 1)) size }
{
    at <= size && word < size - at && numbers <= (size - at - word - 1) / 21
}

// The numbers, a space before each, and the end of the line.
fn put_numbers(out: &mut [u8], at: usize, numbers: &[u64]) -> usize
    requires { at + 21 * length numbers.now + 1 ≤ length out.old }
    ensures printed { Printed out.old at (spaced numbers.now) out.new result }
    ensures upper_bound { result ≤ at + 21 * length numbers.now + 1 }
{
    let mut end = at;
    for number in numbers {
        end = put_number(out, end, *number);
    }
    put_byte(out, end, b'\n')
}

// A space, and the number.
fn put_number(out: &mut [u8], at: usize, number: u64) -> usize
    requires { at + 21 ≤ length out.old }
    ensures printed { Printed out.old at (32 ∷ decimal number) out.new result }
    ensures upper_bound { result ≤ at + 21 }
{
    let end = put_byte(out, at, b' ');
    put_decimal(out, end, number)
}

// A number of at most 20 digits, where 20 bytes have room; else nothing.
pub fn put_decimal(out: &mut [u8], at: usize, number: u64) -> usize
    ensures { PrintedWithin 20 out.old at (decimal number) out.new result }
{
    if !has_room(out.len(), at, 19, 0) {
        return at;
    }
    let mut buffer = Buffer::new();
    put_bytes(out, at, buffer.format(number).as_bytes())
}

// The bytes, where they have room; else nothing.
fn put_bytes(out: &mut [u8], at: usize, bytes: &[u8]) -> usize
    ensures { PrintedWithin (length bytes.now) out.old at bytes.now out.new result }
{
    if out.len() < at || out.len() - at < bytes.len() {
        return at;
    }
    copy_bytes(out, at, bytes)
}

fn copy_bytes(out: &mut [u8], at: usize, bytes: &[u8]) -> usize
    requires { at + length bytes.now ≤ length out.old }
    ensures { Printed out.old at bytes.now out.new result }
{
    let end = at + bytes.len();
    out[at..end].copy_from_slice(bytes);
    end
}

fn put_byte(out: &mut [u8], at: usize, byte: u8) -> usize
    requires { at < length out.old }
    ensures { Printed out.old at (byte ∷ []) out.new result }
{
    out[at] = byte;
    at + 1
}
