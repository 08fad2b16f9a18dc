//! The parts of a checkpoint, each read from the start of the bytes. What is read borrows from the
//! bytes, so no memory is asked for. Each reader answers what it has read and the bytes after it,
//! or None if the bytes don't begin with such a part.
ghost use Rattle.std.specs.Prelude.{◌≡◌, ◌<◌, ◌≤◌, ◌^◌, ◌-◌, ◌+◌, length, IfSome, MatchOption};
ghost use Rattle.mesh_base.specs.declared.limits.TheConstants.{LONGEST_PACKET};
ghost use Rattle.aodv_model.specs.Soundness.{IsDatum};
ghost use Rattle.mesh_checkpoint.specs.Checkpoint as model;
ghost use Rattle.mesh_checkpoint.specs.Reading.{Gives, GoesOn};
ghost use Rattle.mesh_checkpoint.specs.Views.{link_of, copy_of, item_of, HasDatum, route_behind, waits_behind};

use crate::limits::{DATUM_END, END16, END32, LINK_BASE, LONGEST_HEARD, PACKET_END};
use crate::numbers::{byte, number16, number32, number64, text, truth};
use mesh_base::FlyingView;

/// The least key that may follow this one, which has to be at least `low`. None if it is below.
pub fn rise(low: u64, key: u64) -> Option<u64>
    requires { key < 2 ^ 64 - 1 }
    ensures order { MatchOption result (key < low) (λ above. low ≤ key) }
    ensures next { IfSome result (λ above. above ≡ key + 1) }
{
    if key < low {
        return None;
    }
    Some(key + 1)
}

/// A node of the mesh: its address and its first number.
#[derive(Clone, Copy)]
pub struct Station {
    pub address: u32,
    pub first: u32,
}

/// A node of the mesh.
pub fn read_station(bytes: &[u8]) -> Option<(Station, &[u8])>
    ensures value { Gives (λ x. ((x.0.address, x.0.first), x.1.now)) result
        (model.station.get bytes.now) }
    ensures small { IfSome result (λ x. x.0.address < 2 ^ 32) }
    ensures first { IfSome result (λ x. 1 ≤ x.0.first) }
    ensures shorter { IfSome result (λ x. length x.1.now < length bytes.now) }
{
    let (address, rest) = number32(bytes, 0, END32)?;
    let (first, rest) = number32(rest, 1, END32)?;
    Some((Station { address, first }, rest))
}

/// The fields of a route before its precursors, and how many precursors there are.
#[derive(Clone, Copy)]
pub struct RouteHead {
    pub dest: usize,
    pub number: u32,
    pub known: bool,
    pub valid: bool,
    pub hops: u8,
    pub next: usize,
    pub precursors: u16,
}

/// The fields of a route before its precursors, in a mesh of this many nodes.
pub fn read_route_head(bytes: &[u8], nodes: u32) -> Option<(RouteHead, &[u8])>
    ensures value { GoesOn (λ x. route_behind nodes x.0 x.1.now) result
        ((model.route nodes).get bytes.now) }
    ensures below { IfSome result (λ x. x.0.dest < nodes) }
    ensures small { IfSome result (λ x. x.0.dest < 2 ^ 16) }
    ensures shorter { IfSome result (λ x. length x.1.now < length bytes.now) }
{
    let (dest, rest) = number16(bytes, 0, nodes)?;
    let (number, rest) = number32(rest, 0, END32)?;
    let (known, rest) = truth(rest)?;
    let (valid, rest) = truth(rest)?;
    let (hops, rest) = byte(rest, 1, 256)?;
    let (next, rest) = number16(rest, 0, nodes)?;
    let (precursors, rest) = number16(rest, 0, END16)?;
    let head = RouteHead {
        dest: usize::from(dest),
        number,
        known,
        valid,
        hops,
        next: usize::from(next),
        precursors,
    };
    Some((head, rest))
}

/// A request that was seen: its originator and its id.
#[derive(Clone, Copy)]
pub struct Request {
    pub origin: usize,
    pub id: u32,
}

impl Request {
    /// Its key. Requests follow one another by rising key.
    pub fn key(&self) -> u64
        requires { self.now.origin < 2 ^ 16 }
        ensures key { result ≡ model.request_key (self.now.origin, self.now.id) }
        ensures small { result < 2 ^ 64 - 1 }
    {
        self.origin as u64 * END32 + u64::from(self.id)
    }
}

/// A request, in a mesh of this many nodes.
pub fn read_request(bytes: &[u8], nodes: u32) -> Option<(Request, &[u8])>
    ensures value { Gives (λ x. ((x.0.origin, x.0.id), x.1.now)) result
        ((model.request nodes).get bytes.now) }
    ensures below { IfSome result (λ x. x.0.origin < nodes) }
    ensures small { IfSome result (λ x. x.0.origin < 2 ^ 16) }
    ensures id { IfSome result (λ x. x.0.id < 2 ^ 32) }
    ensures shorter { IfSome result (λ x. length x.1.now < length bytes.now) }
{
    let (origin, rest) = number16(bytes, 0, nodes)?;
    let (id, rest) = number32(rest, 0, END32)?;
    let request = Request {
        origin: usize::from(origin),
        id,
    };
    Some((request, rest))
}

/// The fields before the data that wait for a destination, and how many data there are.
#[derive(Clone, Copy)]
pub struct WaitsHead {
    pub dest: usize,
    pub needs_request: bool,
    pub data: u32,
}

/// The fields before the data that wait for a destination, in a mesh of this many nodes.
pub fn read_waits_head(bytes: &[u8], nodes: u32) -> Option<(WaitsHead, &[u8])>
    ensures value { GoesOn (λ x. waits_behind x.0 x.1.now) result
        ((model.waits nodes).get bytes.now) }
    ensures below { IfSome result (λ x. x.0.dest < nodes) }
    ensures small { IfSome result (λ x. x.0.dest < 2 ^ 16) }
    ensures some { IfSome result (λ x. 1 ≤ x.0.data) }
    ensures shorter { IfSome result (λ x. length x.1.now < length bytes.now) }
{
    let (dest, rest) = number16(bytes, 0, nodes)?;
    let (needs_request, rest) = truth(rest)?;
    let (data, rest) = number32(rest, 1, END32)?;
    let head = WaitsHead {
        dest: usize::from(dest),
        needs_request,
        data,
    };
    Some((head, rest))
}

/// A datum.
pub fn read_datum(bytes: &[u8]) -> Option<(&[u8], &[u8])>
    ensures value { Gives (λ x. (x.0.now, x.1.now)) result (model.datum.get bytes.now) }
    ensures datum { IfSome result (λ x. IsDatum x.0.now) }
    ensures shorter { IfSome result (λ x. length x.1.now < length bytes.now) }
{
    text(bytes, 1, DATUM_END)
}

/// An item of an inbox, which borrows from the bytes.
#[derive(Clone, Copy)]
pub enum ItemView<'a> {
    /// A datum that the node was given.
    New { dest: usize, body: &'a [u8] },
    /// A packet from a neighbour.
    Heard { from: usize, bytes: &'a [u8] },
}

// A datum for a destination, after the byte of its kind.
fn read_new(bytes: &[u8], nodes: u32) -> Option<(usize, &[u8], &[u8])>
    ensures value { Gives (λ x. ((x.0, x.1.now), x.2.now)) result
        ((model.datum_format nodes).get bytes.now) }
    ensures datum { IfSome result (λ x. IsDatum x.1.now) }
    ensures shorter { IfSome result (λ x. length x.2.now < length bytes.now) }
{
    let (dest, rest) = number16(bytes, 0, nodes)?;
    let (body, rest) = read_datum(rest)?;
    Some((usize::from(dest), body, rest))
}

// A packet from a neighbour, after the byte of its kind.
fn read_heard(bytes: &[u8], nodes: u32) -> Option<(usize, &[u8], &[u8])>
    ensures value { Gives (λ x. ((x.0, x.1.now), x.2.now)) result
        ((model.heard_format nodes).get bytes.now) }
    ensures shorter { IfSome result (λ x. length x.2.now < length bytes.now) }
{
    let (from, rest) = number16(bytes, 0, nodes)?;
    let (packet, rest) = text(rest, 0, LONGEST_HEARD + 1)?;
    Some((usize::from(from), packet, rest))
}

/// An item of an inbox, in a mesh of this many nodes.
pub fn read_item(bytes: &[u8], nodes: u32) -> Option<(ItemView<'_>, &[u8])>
    ensures value { Gives (λ x. (item_of x.0, x.1.now)) result ((model.item nodes).get bytes.now) }
    ensures datum { IfSome result (λ x. HasDatum x.0) }
    ensures shorter { IfSome result (λ x. length x.1.now < length bytes.now) }
{
    let (kind, rest) = byte(bytes, 0, 2)?;
    if kind == 0 {
        let (dest, body, rest) = read_new(rest, nodes)?;
        return Some((ItemView::New { dest, body }, rest));
    }
    let (from, bytes, rest) = read_heard(rest, nodes)?;
    Some((ItemView::Heard { from, bytes }, rest))
}

/// Two nodes, the smaller first, whose link stands or has stood.
#[derive(Clone, Copy)]
pub struct Link {
    pub a: usize,
    pub b: usize,
    pub stands: bool,
}

impl Link {
    /// Its key. Links follow one another by rising key.
    pub fn key(&self) -> u64
        requires a { self.now.a < 2 ^ 16 }
        requires b { self.now.b < 2 ^ 16 }
        ensures key { result ≡ model.link_key (link_of self.now) }
        ensures small { result < 2 ^ 64 - 1 }
    {
        self.a as u64 * LINK_BASE + self.b as u64
    }
}

/// A link, in a mesh of this many nodes.
pub fn read_link(bytes: &[u8], nodes: u32) -> Option<(Link, &[u8])>
    ensures value { Gives (λ x. (link_of x.0, x.1.now)) result ((model.link nodes).get bytes.now) }
    ensures rising { IfSome result (λ x. x.0.a < x.0.b) }
    ensures below { IfSome result (λ x. x.0.b < nodes) }
    ensures small { IfSome result (λ x. x.0.b < 2 ^ 16) }
    ensures shorter { IfSome result (λ x. length x.1.now < length bytes.now) }
{
    let (a, rest) = number16(bytes, 0, nodes)?;
    let (b, rest) = number16(rest, u32::from(a) + 1, nodes)?;
    let (stands, rest) = truth(rest)?;
    let link = Link {
        a: usize::from(a),
        b: usize::from(b),
        stands,
    };
    Some((link, rest))
}

/// A copy in flight with an id below that of the next copy, in a mesh of this many nodes.
pub fn read_copy(bytes: &[u8], nodes: u32, next: u64) -> Option<(FlyingView<'_>, &[u8])>
    ensures value { Gives (λ x. (copy_of x.0, x.1.now)) result
        ((model.copy nodes next).get bytes.now) }
    ensures some { IfSome result (λ x. 1 ≤ x.0.id) }
    ensures old { IfSome result (λ x. x.0.id < next) }
    ensures from { IfSome result (λ x. x.0.from < nodes) }
    ensures to { IfSome result (λ x. x.0.to < nodes) }
    ensures short { IfSome result (λ x. length x.0.bytes.now ≤ LONGEST_PACKET) }
    ensures shorter { IfSome result (λ x. length x.1.now < length bytes.now) }
{
    let (id, rest) = number64(bytes, 1, next)?;
    let (from, rest) = number16(rest, 0, nodes)?;
    let (to, rest) = number16(rest, 0, nodes)?;
    let (bytes, rest) = text(rest, 0, PACKET_END)?;
    let copy = FlyingView {
        id,
        from: usize::from(from),
        to: usize::from(to),
        bytes,
    };
    Some((copy, rest))
}
