//! Passing over the parts of a node and of the radio.
ghost use Rattle.std.specs.Prelude.{◌≡◌, ◌≤◌, ℕ, List};
ghost use Rattle.mesh_base.specs.declared.events.Item as declared_item;
ghost use Rattle.mesh_base.specs.declared.events.Flying as declared_flying;
ghost use Rattle.mesh_checkpoint.specs.Formats.{one_if};
ghost use Rattle.mesh_checkpoint.specs.Checkpoint as model;
ghost use Rattle.mesh_checkpoint.specs.Counts as counts;
ghost use Rattle.mesh_checkpoint.specs.Views.{item_of};

use crate::limits::{END16, END32};
use crate::numbers::{number16, number32};
use crate::part::{KeyedPart, Part, pass_all, pass_rising};
use crate::reading::{
    ItemView, read_copy, read_datum, read_item, read_link, read_request, read_route_head,
    read_station, read_waits_head,
};
use aodv_wire::{Message, read};

/// The index of a node, in a mesh of this many.
#[derive(Clone, Copy)]
struct Index {
    nodes: u32,
}

impl KeyedPart for Index {
    ghost Value = { ℕ };

    ghost format = { λ s. model.index s.nodes };

    ghost key = { λ i. i };

    ghost amount = { λ i. 0 };

    fn pass<'b>(&self, bytes: &'b [u8]) -> Option<(u64, u64, &'b [u8])> {
        let (index, rest) = number16(bytes, 0, self.nodes)?;
        Some((u64::from(index), 0, rest))
    }
}

/// A route, in a mesh of this many nodes.
#[derive(Clone, Copy)]
pub(crate) struct Route {
    pub nodes: u32,
}

impl KeyedPart for Route {
    ghost Value = { model.Route };

    ghost format = { λ s. model.route s.nodes };

    ghost key = { λ r. r.dest };

    ghost amount = { λ r. 0 };

    fn pass<'b>(&self, bytes: &'b [u8]) -> Option<(u64, u64, &'b [u8])> {
        let (head, rest) = read_route_head(bytes, self.nodes)?;
        let index = Index { nodes: self.nodes };
        let (_, rest) = pass_rising(&index, u32::from(head.precursors), rest)?;
        Some((head.dest as u64, 0, rest))
    }
}

/// A request that was seen, in a mesh of this many nodes.
#[derive(Clone, Copy)]
pub(crate) struct Request {
    pub nodes: u32,
}

impl KeyedPart for Request {
    ghost Value = { ℕ × ℕ };

    ghost format = { λ s. model.request s.nodes };

    ghost key = { model.request_key };

    ghost amount = { λ p. 0 };

    fn pass<'b>(&self, bytes: &'b [u8]) -> Option<(u64, u64, &'b [u8])> {
        let (request, rest) = read_request(bytes, self.nodes)?;
        Some((request.key(), 0, rest))
    }
}

/// A datum.
#[derive(Clone, Copy)]
struct Datum;

impl Part for Datum {
    ghost Value = { List ℕ };

    ghost format = { λ s. model.datum };

    ghost amount = { λ b. 1 };

    fn pass<'b>(&self, bytes: &'b [u8]) -> Option<(u64, &'b [u8])> {
        let (_body, rest) = read_datum(bytes)?;
        Some((1, rest))
    }
}

/// What waits for a destination, in a mesh of this many nodes.
#[derive(Clone, Copy)]
pub(crate) struct Waits {
    pub nodes: u32,
}

impl KeyedPart for Waits {
    ghost Value = { model.Waits };

    ghost format = { λ s. model.waits s.nodes };

    ghost key = { λ w. w.dest };

    ghost amount = { counts.data_waiting };

    fn pass<'b>(&self, bytes: &'b [u8]) -> Option<(u64, u64, &'b [u8])> {
        let (head, rest) = read_waits_head(bytes, self.nodes)?;
        let (amount, rest) = pass_all(&Datum, head.data, rest)?;
        Some((head.dest as u64, amount, rest))
    }
}

// How many data a packet carries: 1 if its bytes encode a data packet, and else 0.
#[tactic(auto, unfolding(crate::specs::Counts::encodes_datum))]
fn data_of(packet: &[u8]) -> u64
    ensures value { result ≡ one_if (counts.encodes_datum packet.now) }
    ensures few { result ≤ 1 }
{
    match read(packet) {
        Ok(Message::Parcel(_)) => 1,
        _ => 0,
    }
}

// How many data an item is or carries: 1 or 0.
fn data_in(item: ItemView<'_>) -> u64
    ensures value { result ≡ counts.data_in_item (item_of item.entry) }
    ensures few { result ≤ 1 }
{
    match item {
        ItemView::New { .. } => 1,
        ItemView::Heard { bytes, .. } => data_of(bytes),
    }
}

/// An item of an inbox, in a mesh of this many nodes.
#[derive(Clone, Copy)]
pub(crate) struct Item {
    pub nodes: u32,
}

impl Part for Item {
    ghost Value = { declared_item.Item };

    ghost format = { λ s. model.item s.nodes };

    ghost amount = { counts.data_in_item };

    fn pass<'b>(&self, bytes: &'b [u8]) -> Option<(u64, &'b [u8])> {
        let (item, rest) = read_item(bytes, self.nodes)?;
        Some((data_in(item), rest))
    }
}

/// A node, in a mesh of this many.
#[derive(Clone, Copy)]
pub(crate) struct Node {
    pub nodes: u32,
}

impl Part for Node {
    ghost Value = { model.Node };

    ghost format = { λ s. model.node s.nodes };

    ghost amount = { counts.data_at };

    fn pass<'b>(&self, bytes: &'b [u8]) -> Option<(u64, &'b [u8])> {
        let nodes = self.nodes;
        let (_sn, rest) = number32(bytes, 1, END32)?;
        let (count, rest) = number16(rest, 0, END16)?;
        let (_, rest) = pass_rising(&Route { nodes }, u32::from(count), rest)?;
        let (count, rest) = number32(rest, 0, END32)?;
        let (_, rest) = pass_rising(&Request { nodes }, count, rest)?;
        let (count, rest) = number16(rest, 0, END16)?;
        let (waiting, rest) = pass_rising(&Waits { nodes }, u32::from(count), rest)?;
        let (count, rest) = number32(rest, 0, END32)?;
        let (queued, rest) = pass_all(&Item { nodes }, count, rest)?;
        Some((waiting + queued, rest))
    }
}

/// A link, in a mesh of this many nodes.
#[derive(Clone, Copy)]
pub(crate) struct Link {
    pub nodes: u32,
}

impl KeyedPart for Link {
    ghost Value = { model.Link };

    ghost format = { λ s. model.link s.nodes };

    ghost key = { model.link_key };

    ghost amount = { λ l. 0 };

    fn pass<'b>(&self, bytes: &'b [u8]) -> Option<(u64, u64, &'b [u8])> {
        let (link, rest) = read_link(bytes, self.nodes)?;
        Some((link.key(), 0, rest))
    }
}

/// A copy in flight, in a mesh of this many nodes, with an id below that of the next copy.
#[derive(Clone, Copy)]
pub(crate) struct InFlight {
    pub nodes: u32,
    pub next: u64,
}

impl KeyedPart for InFlight {
    ghost Value = { declared_flying.Flying };

    ghost format = { λ s. model.copy s.nodes s.next };

    ghost key = { λ c. c.id };

    ghost amount = { counts.data_in_copy };

    fn pass<'b>(&self, bytes: &'b [u8]) -> Option<(u64, u64, &'b [u8])> {
        let (copy, rest) = read_copy(bytes, self.nodes, self.next)?;
        Some((copy.id, data_of(copy.bytes), rest))
    }
}

/// A node of the mesh: its address and its first number.
#[derive(Clone, Copy)]
pub(crate) struct Station;

impl KeyedPart for Station {
    ghost Value = { ℕ × ℕ };

    ghost format = { λ s. model.station };

    ghost key = { λ p. p.0 };

    ghost amount = { λ p. 0 };

    fn pass<'b>(&self, bytes: &'b [u8]) -> Option<(u64, u64, &'b [u8])> {
        let (station, rest) = read_station(bytes)?;
        Some((u64::from(station.address), 0, rest))
    }
}
