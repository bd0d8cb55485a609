// Replays lists of the Rust original's answers against the calls that a C host has, and counts the cases that differ.
#![tactic(auto)]

mod bits;
mod carriers;
mod list;
mod words;

ghost use Rattle.std.specs.Prelude.{◌≡◌, length, IfOk, IfSome, IsTrue};
ghost use Rattle.std.specs.Io.KnownBytes.{IsAtEnd};
ghost use Rattle.emdf_text.specs.Counts.{IsPrefixLen};
ghost use Rattle.emdf_replay.specs.Places.{CasePast};

use list::Tally;
use std::io::Read;
use std::rt::Files;
use std::{fs, io};

// The longest list that is read, in bytes.
const MOST_BYTES: usize = 1048576;

// The most bytes of a case.
const MOST_CASE_BYTES: usize = 4096;

// The most numbers on a line: 12 and the bytes of a case.
const MOST_NUMBERS: usize = 4108;

// What the cases of a list are.
#[derive(Clone, Copy)]
enum ListKind {
    Bits,
    Carriers,
}

fn main(rt: HostRuntime) {
    replay_file(&rt, ListKind::Bits, "bits", "bits.txt");
    replay_file(&rt, ListKind::Carriers, "carriers", "carriers.txt");
}

fn replay_file(rt: &(impl Files + Print + Eprint), kind: ListKind, name: &str, path: &str) {
    let mut space = list_space();
    match read_list(rt, path, &mut space) {
        Ok(Some(n)) => replay(rt, kind, name, &space[..n]),
        Ok(None) => {}
        Err(why) => emdf_text::fail(rt, path, why),
    }
}

// How many bytes the list has, which stand at the start of space; nothing where it is too long.
fn read_list(rt: &(impl Files + Print), path: &str, space: &mut [u8]) -> io::Result<Option<usize>>
    ensures { IfOk result (λ found. IfSome found (λ n. IsPrefixLen n space.new)) }
{
    let mut file = fs::open(rt, path)?;
    let n = emdf_text::read_full(&mut file, space)?;
    Ok(is_read(rt, &mut file, path)?.then_some(n))
}

// Nothing is left to read: a part of a list must not pass for the whole.
fn is_read<R: Read>(rt: &impl Print, file: &mut R, path: &str) -> io::Result<bool>
    ensures { IfOk result (λ whole. IsTrue whole → IsAtEnd (R.remaining file.new)) }
{
    let mut more = [0u8; 1];
    if file.read(&mut more)? == 0 {
        return Ok(true);
    }
    let _ = println!(rt; "{path}: too long");
    Ok(false)
}

// By itself, so that no other proof counts so long an array through.
fn list_space() -> [u8; MOST_BYTES]
    ensures { 1048576 ≡ length result }
{
    [0; MOST_BYTES]
}

fn replay(rt: &impl Print, kind: ListKind, name: &str, text: &[u8]) {
    let mut tally = Tally {
        cases: 0,
        differ: 0,
    };
    let mut at: usize = 0;
    // No `for` over split_inclusive: in a function that is generic over rt the check refuses what it makes of the invariant.
    while at < text.len() {
        let Some((next, same)) = case_at(kind, text, at) else {
            list::print_bad_line(rt, name, tally);
            return;
        };
        tally = tally.counted(rt, same);
        at = next;
    }
    list::print_tally(rt, name, tally);
}

// The case on the line at index at: where the next line starts, and whether the answers are the same.
fn case_at(kind: ListKind, text: &[u8], at: usize) -> Option<(usize, bool)>
    ensures { CasePast at result }
{
    let mut numbers = [0u64; MOST_NUMBERS];
    let (count, next) = list::line_at(text, at, &mut numbers)?;
    let same = list_outcome(kind, &numbers[..count])?;
    Some((next, same))
}

// A case of the bit calls has its call's number before the bytes.
fn list_outcome(kind: ListKind, numbers: &[u64]) -> Option<bool> {
    match kind {
        ListKind::Bits => {
            let (call, rest) = numbers.split_first()?;
            line_outcome(kind, *call, rest)
        }
        ListKind::Carriers => line_outcome(kind, 0, numbers),
    }
}

// length byte*length, and what is compared.
fn line_outcome(kind: ListKind, call: u64, numbers: &[u64]) -> Option<bool> {
    let (length, numbers) = numbers.split_first()?;
    let (values, rest) = numbers.split_at_checked(words::index(*length))?;
    let mut space = [0u8; MOST_CASE_BYTES];
    let bytes = space.get_mut(..values.len())?;
    words::put_bytes(bytes, values)?;
    case_outcome(kind, call, bytes, rest)
}

fn case_outcome(kind: ListKind, call: u64, bytes: &[u8], rest: &[u64]) -> Option<bool> {
    match kind {
        ListKind::Bits => bits::outcome(call, bytes, rest),
        ListKind::Carriers => carriers::outcome(bytes, rest),
    }
}
