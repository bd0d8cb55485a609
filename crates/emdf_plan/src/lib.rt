// What an edit asks before it writes, and where it cuts its source.
#![tactic(auto)]

ghost use Rattle.std.specs.Prelude.{◌≡◌, [], ◌+◌, ◌-◌, ◌*◌, ◌^◌, ◌<◌, ◌≤◌, length};
ghost use Rattle.emdf_payloads.specs.Payloads.{step_at};
ghost use Rattle.openjoc_emdf.specs.Answers.{Opened};
ghost use Rattle.emdf_plan.specs.Plan.{layout_of, edge_at, CutIn, measure, plan_of};
ghost use Rattle.emdf_plan.specs.Walking.{past_payloads, placed_at};

use emdf_format::{EditError, EmdfPayloadBitTrace, MAX_DECLARED};
use emdf_payloads::{bit_trace, next_payload, skip_payload};
use emdf_request::{Brought, Edge, Request, Stretch, brought_by, place_exists, stretch_of};
use openjoc_bitio::{BitCursor, BitOffset, ByteCount};
use openjoc_emdf::{ParsedEmdf, open_carrier};

// Where a container's parts stand, with the payload at one place, or the end mark where there is none.
#[derive(Clone, Copy)]
pub struct Layout {
    pub first: BitOffset,
    pub place: EmdfPayloadBitTrace,
    pub codes: BitOffset,
    pub end: BitOffset,
}

// The spans of the payload that stands at a cursor, or of nothing, and the cursor past it.
#[derive(Clone, Copy)]
pub struct Placed {
    pub trace: EmdfPayloadBitTrace,
    pub next: BitCursor,
}

// The bits to replace in a source, where the bits after them that are kept end, and the bytes that the container declares
// afterwards.
#[derive(Clone, Copy)]
pub struct Cut {
    pub from: BitOffset,
    pub to: BitOffset,
    pub kept: BitOffset,
    pub size: ByteCount,
}

// A request with the bytes that it brings: the new body or primary protection, and the new secondary protection.
#[derive(Clone, Copy)]
pub struct Change<'a> {
    pub request: Request,
    pub octets: &'a [u8],
    pub secondary: &'a [u8],
}

impl Change<'_> {
    pub fn without_bytes(request: Request) -> Change<'static>
        ensures request { result.request ≡ request }
        ensures octets { result.octets.now ≡ [] }
        ensures secondary { result.secondary.now ≡ [] }
    {
        Change {
            request,
            octets: &[],
            secondary: &[],
        }
    }
}

// The questions of an edit in their order, and where it cuts.
pub fn plan_edit(source: &[u8], change: Change, room: usize) -> Result<Cut, EditError>
    ensures { result ≡ plan_of change.entry.request change.entry.octets.now change.entry.secondary.now source.now room }
{
    let (parsed, first) = open_carrier(source).map_err(EditError::Emdf)?;
    plan_opened(source, parsed, first, change, room)
}

// The same, of a source that is read.
fn plan_opened(
    source: &[u8],
    parsed: ParsedEmdf,
    first: BitCursor,
    change: Change,
    room: usize,
) -> Result<Cut, EditError>
    requires { Opened source.now parsed first }
    ensures { result ≡ plan_of change.entry.request change.entry.octets.now change.entry.secondary.now source.now room }
{
    let request = change.request;
    if parsed.bytes_consumed.0 != source.len() {
        return Err(EditError::TrailingData);
    }
    if !place_exists(request, parsed.container.payloads) {
        return Err(EditError::NoSuchPlace);
    }
    let brought = brought_by(request, change.octets, change.secondary);
    if !brought.writable {
        return Err(EditError::NotWritable);
    }
    let stretch = stretch_of(request);
    let layout = lay_out(source, parsed, first, stretch.place);
    measured(stretch, layout, brought, room)
}

// Where the parts of a container stand that is all of its source.
fn lay_out(source: &[u8], parsed: ParsedEmdf, first: BitCursor, place: usize) -> Layout
    requires { ((o : Opened source.now parsed first) × (place ≤ length o.container.found)) × (parsed.bytes_consumed.0 ≡ length source.now) }
    ensures { (o : Opened source.now parsed first) → result ≡ layout_of place o.container }
{
    let at = skip_payloads(source, first, place);
    let placed = place_at(source, at);
    let later = (parsed.container.payloads - place).saturating_sub(1);
    let mark = skip_payloads(source, placed.next, later);
    let codes = mark.position + 5;
    let protection = parsed.container.protection;
    let octets = protection.primary.length.0 + protection.secondary.length.0;
    Layout {
        first: BitOffset(first.position),
        place: placed.trace,
        codes: BitOffset(codes),
        end: BitOffset(codes + 4 + 8 * octets),
    }
}

// The cursor past n payloads.
fn skip_payloads(source: &[u8], c: BitCursor, n: usize) -> BitCursor
    ensures { result ≡ past_payloads source.now c n }
{
    let mut at = c;
    for _ in 0..n {
        if let Ok((Some(_), next)) = skip_payload(source, at) {
            at = next;
        }
    }
    at
}

// What stands at c.
fn place_at(source: &[u8], c: BitCursor) -> Placed
    ensures { result ≡ placed_at (step_at source.now c) c }
{
    match next_payload(source, c) {
        Ok((Some(record), next)) => Placed {
            trace: record.trace,
            next,
        },
        _ => {
            let at = c.position;
            Placed {
                trace: bit_trace(at, at, at, at, at),
                next: c,
            }
        }
    }
}

// Where an edge stands.
fn edge_at(edge: Edge, layout: Layout) -> BitOffset
    requires { layout.codes.0 < 2 ^ 32 }
    ensures { result ≡ edge_at edge layout }
{
    let codes = layout.codes;
    match edge {
        Edge::Key => BitOffset(34),
        Edge::First => layout.first,
        Edge::Id => layout.place.payload_id_start_bit,
        Edge::Config => layout.place.config_start_bit,
        Edge::Size => layout.place.payload_size_start_bit,
        Edge::Next => layout.place.payload_body_end_bit,
        Edge::Codes => codes,
        Edge::Protection => BitOffset(codes.0 + 4),
        Edge::End => layout.end,
    }
}

// Whether the edited container can declare its length, and the carrier fits into so much room. The octets are counted before
// they are multiplied.
fn measured(
    stretch: Stretch,
    layout: Layout,
    brought: Brought,
    room: usize,
) -> Result<Cut, EditError>
    requires { CutIn stretch layout × (brought.fields ≤ 4096) }
    ensures { result ≡ measure stretch layout brought room }
{
    let octets = brought.octets;
    if MAX_DECLARED < octets {
        return Err(EditError::TooLong);
    }
    let from = edge_at(stretch.from, layout);
    let to = edge_at(stretch.to, layout);
    let kept = edge_at(stretch.kept, layout);
    let others = layout.end.0 - 32 - (to.0 - from.0);
    let size = (others + brought.fields + 8 * octets).div_ceil(8);
    if MAX_DECLARED < size {
        return Err(EditError::TooLong);
    }
    let n = 4 + size;
    if room < n {
        return Err(EditError::DestinationTooShort {
            needed: ByteCount(n),
        });
    }
    Ok(Cut {
        from,
        to,
        kept,
        size: ByteCount(size),
    })
}
