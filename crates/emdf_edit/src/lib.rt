// The calls that write a carrier into a caller's destination.
#![tactic(auto)]

ghost use Rattle.std.specs.Prelude.{◌≡◌, ◌+◌, length};
ghost use Rattle.emdf_format.specs.Edits.{body_edit, settings_edit, drop_edit, insert_edit, key_edit, protection_edit, Called};
ghost use Rattle.emdf_request.specs.Requests.{edit_of, new_bits};
ghost use Rattle.emdf_plan.specs.Plan.{spliced};
ghost use Rattle.emdf_field_writer.specs.Fields.{Room, Put};
ghost use Rattle.emdf_edit.specs.Cuts.{Within};

use emdf_format::{EditError, EmdfPayloadConfig};
pub use emdf_plan::Change;
use emdf_plan::{Cut, plan_edit};
use emdf_request::Request;
use openjoc_bitio::{BitOffset, ByteCount};

// What a change brings.
fn put_new(out: &mut [u8], at: BitOffset, change: Change) -> BitOffset
    requires { Room out.old at.0 (new_bits change.request change.octets.now change.secondary.now) }
    ensures { Put out.old at.0 (new_bits change.entry.request change.entry.octets.now change.entry.secondary.now) out.new result.0 }
{
    let octets = change.octets;
    match change.request {
        Request::Body(_) => emdf_field_writer::put_body(out, at, octets),
        Request::Settings(_, config) => emdf_field_writer::put_config(out, at, config),
        Request::Drop(_) => at,
        Request::Insert(_, id, config) => emdf_field_writer::put_payload(
            out, at, id, config, octets,
        ),
        Request::Key(id) => emdf_field_writer::put_extended(out, at, 3, id),
        Request::Protection => emdf_field_writer::put_protection(out, at, octets, change.secondary),
    }
}

// The edited carrier, over bytes of its own length: what the change brings stands in the source's bits, instead of those cut
// out, and zeros after those that are kept.
fn put_splice(out: &mut [u8], source: &[u8], cut: Cut, change: Change) -> BitOffset
    requires { Within source.now cut (new_bits change.request change.octets.now change.secondary.now) × (length out.old ≡ 4 + cut.size.0) }
    ensures { Put out.old 0 (spliced source.now cut (new_bits change.entry.request change.entry.octets.now change.entry.secondary.now)) out.new result.0 }
{
    let Cut {
        from,
        to,
        kept,
        size,
    } = cut;
    let sync = emdf_field_writer::put_sync(out, size);
    let before = emdf_field_writer::put_run(out, sync, source, BitOffset(32), from.0 - 32);
    let new = put_new(out, before, change);
    let after = emdf_field_writer::put_run(out, new, source, to, kept.0 - to.0);
    emdf_field_writer::put_zeros(out, after, (4 + size.0) * 8 - after.0)
}

// Any edit: all questions before the first byte is stored.
pub fn apply(source: &[u8], change: Change, destination: &mut [u8]) -> Result<ByteCount, EditError>
    ensures { Called (edit_of change.entry.request change.entry.octets.now change.entry.secondary.now) source.now destination.old result destination.new }
{
    let cut = plan_edit(source, change, destination.len())?;
    let n = 4 + cut.size.0;
    put_splice(&mut destination[..n], source, cut, change);
    Ok(ByteCount(n))
}

// Another body for the payload at place.
#[tactic(auto, unfolding(emdf_request::specs::Requests::edit_of))]
pub fn replace_body(
    source: &[u8],
    place: usize,
    body: &[u8],
    destination: &mut [u8],
) -> Result<ByteCount, EditError>
    ensures { Called (body_edit place body.now) source.now destination.old result destination.new }
{
    let change = Change {
        request: Request::Body(place),
        octets: body,
        secondary: &[],
    };
    apply(source, change, destination)
}

// Other settings, all ten, for the payload at place.
#[tactic(auto, unfolding(emdf_request::specs::Requests::edit_of))]
pub fn replace_settings(
    source: &[u8],
    place: usize,
    config: EmdfPayloadConfig,
    destination: &mut [u8],
) -> Result<ByteCount, EditError>
    ensures { Called (settings_edit place config) source.now destination.old result destination.new }
{
    apply(
        source,
        Change::without_bytes(Request::Settings(place, config)),
        destination,
    )
}

// The carrier without the payload at place.
#[tactic(auto, unfolding(emdf_request::specs::Requests::edit_of))]
pub fn drop_payload(
    source: &[u8],
    place: usize,
    destination: &mut [u8],
) -> Result<ByteCount, EditError>
    ensures { Called (drop_edit place) source.now destination.old result destination.new }
{
    apply(
        source,
        Change::without_bytes(Request::Drop(place)),
        destination,
    )
}

// A payload more, before the one at place; or after the last one, where place is their number.
#[tactic(auto, unfolding(emdf_request::specs::Requests::edit_of))]
pub fn insert_payload(
    source: &[u8],
    place: usize,
    id: u64,
    config: EmdfPayloadConfig,
    body: &[u8],
    destination: &mut [u8],
) -> Result<ByteCount, EditError>
    ensures { Called (insert_edit place id config body.now) source.now destination.old result destination.new }
{
    let change = Change {
        request: Request::Insert(place, id, config),
        octets: body,
        secondary: &[],
    };
    apply(source, change, destination)
}

// Another key id.
#[tactic(auto, unfolding(emdf_request::specs::Requests::edit_of))]
pub fn replace_key(source: &[u8], key: u64, destination: &mut [u8]) -> Result<ByteCount, EditError>
    ensures { Called (key_edit key) source.now destination.old result destination.new }
{
    apply(
        source,
        Change::without_bytes(Request::Key(key)),
        destination,
    )
}

// Other protections.
#[tactic(auto, unfolding(emdf_request::specs::Requests::edit_of))]
pub fn replace_protection(
    source: &[u8],
    primary: &[u8],
    secondary: &[u8],
    destination: &mut [u8],
) -> Result<ByteCount, EditError>
    ensures { Called (protection_edit primary.now secondary.now) source.now destination.old result destination.new }
{
    let change = Change {
        request: Request::Protection,
        octets: primary,
        secondary,
    };
    apply(source, change, destination)
}
