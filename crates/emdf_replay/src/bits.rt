// A case of the bit calls, by its line's numbers: call length byte*length position end argument number word*6.
use crate::words;

// Whether the call answers the same; nothing where the line is no case. The rest of the line is position end argument number word*6.
pub(crate) fn outcome(call: u64, bytes: &[u8], rest: &[u64]) -> Option<bool> {
    let (head, answer_words) = rest.split_first_chunk::<4>()?;
    if answer_words.len() != 6 {
        return None;
    }
    let [position, end, argument, number] = *head;
    let mut answer = [0u8; 48];
    let returned = call_host(
        call,
        bytes,
        words::index(position),
        words::index(end),
        argument,
        &mut answer,
    )?;
    Some(u64::from(returned) == number && words::same_words(&answer, answer_words))
}

// The number that a call returned; nothing where the line names none.
fn call_host(
    call: u64,
    bytes: &[u8],
    position: usize,
    end: usize,
    argument: u64,
    answer: &mut [u8; 48],
) -> Option<u32> {
    match call {
        0 if position == 0 && end == 0 && argument == 0 => {
            Some(emdf_host::emdf_bit_cursor(bytes, answer))
        }
        1 => Some(emdf_host::emdf_bits_remaining(bytes, position, end, answer)),
        2 => {
            let count = u8::try_from(argument).ok()?;
            Some(emdf_host::emdf_read_bits(bytes, position, end, count, answer))
        }
        3 => Some(emdf_host::emdf_read_bit(bytes, position, end, answer)),
        4 => {
            let count = words::index(argument);
            Some(emdf_host::emdf_take_bits(bytes, position, end, count, answer))
        }
        5 => Some(emdf_host::emdf_byte_align(bytes, position, end, answer)),
        _ => None,
    }
}
