// A recipe of edits on file: its records, and the check of its whole chain, before any edit.
#![tactic(auto)]

ghost use Rattle.std.specs.Prelude.{◌≡◌, ◌^◌, ◌<◌, ◌≤◌};
ghost use Rattle.emdf_recipe.specs.File.{octets_number, kind_of, record_at, next_allowed, record_allowed, link_of, recipe_of, check_answer};

use emdf_format::RecipeError;

// What a record's edit does: it replaces a body, drops a payload or replaces the key id.
#[derive(Clone, Copy)]
pub enum RecordKind {
    Body,
    Drop,
    Key,
}

// A record of the file. A kind that isn't listed is its number.
#[derive(Clone, Copy)]
pub struct RecipeRecord {
    pub next: usize,
    pub kind: Result<RecordKind, u64>,
    pub zero: u64,
    pub place: usize,
    pub offset: usize,
    pub length: usize,
}

// A key's octets.
const KEY_OCTETS: usize = 8;

// Before the first record: first index and count.
const HEAD: usize = 4;

// The big-endian number of so many octets from octet at on.
pub fn octets_number(s: &[u8], at: usize, octets: usize) -> u64
    requires { (at < 2 ^ 61) × (0 < octets) × (octets ≤ 8) }
    ensures { result ≡ octets_number s.now at octets }
{
    openjoc_bitio::window_at(s, at * 8) >> (64 - octets * 8)
}

// A kind by its number in the file.
#[tactic(auto, unfolding(crate::specs::File::kind_of))]
fn kind_of(number: u64) -> Result<RecordKind, u64>
    ensures { result ≡ kind_of number }
{
    match number {
        1 => Ok(RecordKind::Body),
        2 => Ok(RecordKind::Drop),
        3 => Ok(RecordKind::Key),
        _ => Err(number),
    }
}

pub fn record_at(s: &[u8], i: usize) -> RecipeRecord
    requires { (0 < i) × (i < 65536) }
    ensures { result ≡ record_at s.now i }
{
    let at = 16 * i - 12;
    RecipeRecord {
        next: octets_number(s, at, 2) as usize,
        kind: kind_of(octets_number(s, at + 2, 1)),
        zero: octets_number(s, at + 3, 1),
        place: octets_number(s, at + 4, 4) as usize,
        offset: octets_number(s, at + 8, 4) as usize,
        length: octets_number(s, at + 12, 4) as usize,
    }
}

// Whether a record's next index ends the chain, or leads on to a later record.
fn next_allowed(count: usize, i: usize, next: usize) -> bool
    ensures { result ≡ next_allowed count i next }
{
    next == 0 || (i < next && next <= count)
}

// Whether a record in a file of n bytes can be run.
fn record_allowed(n: usize, e: RecipeRecord) -> bool
    requires { (e.offset < 2 ^ 32) × (e.length < 2 ^ 32) }
    ensures { result ≡ record_allowed n e }
{
    if e.zero != 0 {
        return false;
    }
    let data_there = e.offset + e.length <= n;
    match e.kind {
        Ok(RecordKind::Body) => data_there,
        Ok(RecordKind::Drop) => true,
        Ok(RecordKind::Key) => data_there && e.length == KEY_OCTETS,
        Err(_) => false,
    }
}

// A record's questions.
fn link_at(s: &[u8], count: usize, i: usize) -> Result<usize, RecipeError>
    requires { (0 < i) × (i < 65536) }
    ensures { result ≡ link_of s.now count i }
{
    if s.len() < HEAD + 16 * i {
        return Err(RecipeError::BrokenChain);
    }
    let e = record_at(s, i);
    if !next_allowed(count, i, e.next) {
        return Err(RecipeError::BrokenChain);
    }
    if !record_allowed(s.len(), e) {
        return Err(RecipeError::InvalidRecord);
    }
    Ok(e.next)
}

// The whole chain.
pub fn check_recipe(file: &[u8]) -> Result<usize, RecipeError>
    ensures { result ≡ check_answer (recipe_of file.now) }
{
    if file.len() < HEAD {
        return Err(RecipeError::BrokenChain);
    }
    let count = octets_number(file, 2, 2) as usize;
    let mut i = octets_number(file, 0, 2) as usize;
    if count < i {
        return Err(RecipeError::BrokenChain);
    }
    let mut edits = 0;
    // A chain is a linked list: each record names the next one.
    while i != 0 {
        i = link_at(file, count, i)?;
        edits += 1;
    }
    Ok(edits)
}
