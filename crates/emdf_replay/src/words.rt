// Numbers of a line as bytes, and as the words of an answer.
ghost use Rattle.std.specs.Prelude.{◌≤◌, length};

// Whether bytes start with these words, the most significant byte of each first.
pub(crate) fn same_words(bytes: &[u8], words: &[u64]) -> bool {
    let (chunks, _) = bytes.as_chunks::<8>();
    words.len() <= chunks.len()
        && chunks
            .iter()
            .zip(words)
            .all(|(chunk, word)| u64::from_be_bytes(*chunk) == *word)
}

// Puts numbers at the start of bytes, if each is a byte.
pub(crate) fn put_bytes(bytes: &mut [u8], numbers: &[u64]) -> Option<()>
    requires { length numbers.now ≤ length bytes.old }
{
    for (byte, number) in bytes.iter_mut().zip(numbers) {
        *byte = u8::try_from(*number).ok()?;
    }
    Some(())
}

pub(crate) fn index(number: u64) -> usize {
    number as usize
}
