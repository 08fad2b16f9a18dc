//! What a router has done, and an entry of its table, in addresses.
use aodv_model::{Flag, Known};
use arrayvec::ArrayVec;
use mesh_base::{Kind, LONGEST_DATUM, MOST_NODES, Packet};

/// Some addresses of a mesh, in rising order.
pub type Addrs = ArrayVec<u32, MOST_NODES>;

/// The bytes of a datum.
pub type Body = ArrayVec<u8, LONGEST_DATUM>;

/// What was taken from the inbox.
#[derive(Clone, Copy, Debug, PartialEq, Eq)]
pub enum Taken {
    /// Nothing: the outcome is that of a send or a request.
    Nothing,
    /// A datum for the router itself.
    Own,
    /// A datum that now waits for a route to this address.
    Stored(u32),
    /// A packet of this kind, from this neighbour.
    Heard { from: u32, kind: Kind },
}

/// To whom a packet goes.
#[derive(Clone, Copy, Debug, PartialEq, Eq)]
pub enum Casting {
    /// There is no packet.
    Nothing,
    /// To one neighbour.
    One,
    /// To some neighbours.
    Many,
    /// To all neighbours.
    All,
}

/// What a turn, a send or a request has done, besides changing the router's state. The packet is to
/// be cast as it is.
#[derive(Drop)]
pub struct Outcome {
    /// What was taken from the inbox.
    pub took: Taken,
    /// The datum in `body` has come to its destination, which is this router.
    pub delivered: bool,
    /// A datum was dropped. If a turn took it, it is the one in `body`.
    pub lost: bool,
    /// The next hop that a unicast couldn't reach, since it isn't near.
    pub broken: Option<u32>,
    /// To whom the packet goes.
    pub cast: Casting,
    /// The neighbours to which the packet goes, if they are named: the one, or the many.
    pub to: Addrs,
    /// The packet, or no bytes.
    pub packet: Packet,
    /// The datum that was taken; no bytes if none was taken, or if it now waits.
    pub body: Body,
}

/// An entry of the routing table.
#[derive(Drop)]
pub struct Row {
    /// The destination's sequence number. 0 is unknown.
    pub dsn: u32,
    /// Whether that number is known.
    pub dsk: Known,
    /// Whether the route is valid.
    pub flag: Flag,
    /// The number of hops to the destination, at least 1.
    pub hops: u8,
    /// The next hop towards the destination.
    pub next: u32,
    /// The precursors: neighbours that were told of this route and may use it.
    pub pre: Addrs,
}
