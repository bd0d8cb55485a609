// The blank carrier: a key id and protections, without payloads.
#![tactic(auto)]

ghost use Rattle.std.specs.Prelude.{◌≡◌, ◌+◌, ◌<◌, ◌≤◌, length};
ghost use Rattle.emdf_format.specs.Contents.{carrier_bits, declared};
ghost use Rattle.emdf_format.specs.Edits.{blank_contents, blank, Gives};
ghost use Rattle.emdf_field_writer.specs.Fields.{Put};

use emdf_format::EditError;
use openjoc_bitio::{BitOffset, ByteCount};

// The declared length of a blank carrier.
fn blank_declared(key: u64, primary: &[u8], secondary: &[u8]) -> ByteCount
    requires { (length primary.now ≤ 16) × (length secondary.now ≤ 16) }
    ensures { (result.0 ≡ declared (blank_contents key primary.now secondary.now)) × (result.0 < 65536) }
{
    let bits = emdf_measure::key_bits(key) + 5 + 4 + 8 * (primary.len() + secondary.len());
    ByteCount(bits.div_ceil(8))
}

// The blank carrier, over bytes of its own length.
fn put_blank(
    out: &mut [u8],
    size: ByteCount,
    key: u64,
    primary: &[u8],
    secondary: &[u8],
) -> BitOffset
    requires { (size.0 ≡ declared (blank_contents key primary.now secondary.now)) × (length out.old ≡ 4 + size.0) × (size.0 < 65536) }
    ensures { Put out.old 0 (carrier_bits (blank_contents key primary.now secondary.now)) out.new result.0 }
{
    let header = emdf_field_writer::put_header(out, size, key);
    let mark = emdf_field_writer::put_field(out, header, 5, 0);
    let end = emdf_field_writer::put_protection(out, mark, primary, secondary);
    emdf_field_writer::put_field(out, end, (4 + size.0) * 8 - end.0, 0)
}

// The carrier of a key id and protection, without payloads.
pub fn blank_carrier(
    key: u64,
    primary: &[u8],
    secondary: &[u8],
    destination: &mut [u8],
) -> Result<ByteCount, EditError>
    ensures { Gives (blank key primary.now secondary.now destination.old) result destination.new }
{
    if !emdf_measure::writable_protection(primary, secondary) {
        return Err(EditError::NotWritable);
    }
    let size = blank_declared(key, primary, secondary);
    let n = 4 + size.0;
    if destination.len() < n {
        return Err(EditError::DestinationTooShort {
            needed: ByteCount(n),
        });
    }
    put_blank(&mut destination[..n], size, key, primary, secondary);
    Ok(ByteCount(n))
}
