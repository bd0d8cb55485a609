// Text, as the programs read and write it: a reader's bytes, decimal numbers in them, lines in a buffer, and what failed.
#![tactic(auto)]

mod input;
mod lines;
mod report;

ghost use Rattle.std.specs.Prelude.{◌≡◌};
ghost use Rattle.emdf_text.specs.Text.{decimal_at};

pub use input::read_full;
pub use lines::{put_decimal, put_line};
pub use report::fail;

// The number whose digits start at index at, and the index past its last digit; nothing where no digit is there, or no u64
// holds the number.
pub fn number_at(text: &[u8], at: usize) -> Option<(u64, usize)>
    ensures { result ≡ decimal_at text.now at }
{
    let rest = text.get(at..)?;
    if !rest.first()?.is_ascii_digit() {
        return None;
    }
    let mut number: u64 = 0;
    // What no u64 holds is known at its first digit too many, so that the rest of a long run is not looked at.
    for (i, byte) in rest.iter().enumerate() {
        if !byte.is_ascii_digit() {
            return Some((number, at + i));
        }
        number = number.checked_mul(10)?.checked_add(u64::from(byte - 48))?;
    }
    Some((number, text.len()))
}
