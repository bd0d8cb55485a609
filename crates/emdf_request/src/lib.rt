// What a request for an edit asks for: its place, the bits that it replaces, and what it brings.
#![tactic(auto)]

ghost use Rattle.std.specs.Prelude.{◌≡◌, [], ◌≤◌};
ghost use Rattle.emdf_format.specs.Contents.{writable_payload};
ghost use Rattle.emdf_format.specs.Edits.{place_exists};
ghost use Rattle.emdf_request.specs.declared.Request.TheVariants.{Insert};
ghost use Rattle.emdf_request.specs.Requests.{edit_of, stretch_of, bringing};

use emdf_format::EmdfPayloadConfig;

// One of the six edits, without the bytes that it brings: a body, or a primary and a secondary protection.
#[derive(Clone, Copy)]
pub enum Request {
    Body(usize),
    Settings(usize, EmdfPayloadConfig),
    Drop(usize),
    Insert(usize, u64, EmdfPayloadConfig),
    Key(u64),
    Protection,
}

// The edges of a container's parts: its key id, its first payload, the parts of the payload at one place, the codes of its
// protections, and these.
#[derive(Clone, Copy)]
pub enum Edge {
    Key,
    First,
    Id,
    Config,
    Size,
    Next,
    Codes,
    Protection,
    End,
}

// The bits that a request replaces: those between two edges, with the payload at a place. The ones after them are kept up to a
// third edge, and then cleared.
#[derive(Clone, Copy)]
pub struct Stretch {
    pub place: usize,
    pub from: Edge,
    pub to: Edge,
    pub kept: Edge,
}

// What a request brings: whether it can be written, how many bits of fields it is, and how many whole octets.
#[derive(Clone, Copy)]
pub struct Brought {
    pub writable: bool,
    pub fields: usize,
    pub octets: usize,
}

// Whether the place that a request names is there, in so many payloads.
pub fn place_exists(request: Request, count: usize) -> bool
    ensures { result ≡ place_exists (edit_of request [] []) count }
{
    match request {
        Request::Body(place) | Request::Settings(place, _) | Request::Drop(place) => place < count,
        Request::Insert(place, _, _) => place <= count,
        Request::Key(_) | Request::Protection => true,
    }
}

// The bits that a request replaces.
pub fn stretch_of(request: Request) -> Stretch
    ensures { result ≡ stretch_of request }
{
    let (place, from, to) = match request {
        Request::Body(place) => (place, Edge::Size, Edge::Next),
        Request::Settings(place, _) => (place, Edge::Config, Edge::Size),
        Request::Drop(place) => (place, Edge::Id, Edge::Next),
        Request::Insert(place, _, _) => (place, Edge::Id, Edge::Id),
        Request::Key(_) => (0, Edge::Key, Edge::First),
        Request::Protection => (0, Edge::Codes, Edge::End),
    };
    let kept = match request {
        Request::Protection => Edge::End,
        _ => Edge::Protection,
    };
    Stretch {
        place,
        from,
        to,
        kept,
    }
}

// What a request brings. The source's contents can be written.
pub fn brought_by(request: Request, octets: &[u8], secondary: &[u8]) -> Brought
    ensures { (result ≡ (bringing request octets.now secondary.now).brought) × (result.fields ≤ 4096) }
{
    match request {
        Request::Body(_) => Brought {
            writable: true,
            fields: emdf_measure::size_bits(octets.len()),
            octets: octets.len(),
        },
        Request::Settings(_, config) => Brought {
            writable: emdf_measure::writable_config(config),
            fields: emdf_measure::config_bits(config),
            octets: 0,
        },
        Request::Drop(_) => Brought {
            writable: true,
            fields: 0,
            octets: 0,
        },
        Request::Insert(_, id, config) => payload_brought(id, config, octets),
        Request::Key(id) => Brought {
            writable: true,
            fields: emdf_measure::key_bits(id) - 2,
            octets: 0,
        },
        Request::Protection => Brought {
            writable: emdf_measure::writable_protection(octets, secondary),
            fields: 4,
            octets: octets.len() + secondary.len(),
        },
    }
}

// A payload with its body.
fn payload_brought(id: u64, config: EmdfPayloadConfig, body: &[u8]) -> Brought
    ensures { (result ≡ (bringing (Insert 0 id config) body.now []).brought) × (result.fields ≤ 4096) }
{
    Brought {
        writable: writable_payload(id, config),
        fields: emdf_measure::id_bits(id)
            + emdf_measure::config_bits(config)
            + emdf_measure::size_bits(body.len()),
        octets: body.len(),
    }
}

fn writable_payload(id: u64, config: EmdfPayloadConfig) -> bool
    ensures { result ≡ writable_payload (record { id = id; config = config; body = [] }) }
{
    id != 0 && emdf_measure::writable_config(config)
}
