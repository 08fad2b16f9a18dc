//! Events of a mesh, what waits at nodes or is in flight, and what a step did.
//!
//! A node is given here by its index in the mesh.
use crate::bytes::Bytes;
use crate::set::NodeSet;

/// One atomic step of a mesh. A body has 1 to 512 bytes.
#[derive(Clone, Copy)]
pub enum Event<'a> {
    /// A datum for `dest` joins the inbox of `node`.
    Give {
        node: usize,
        dest: usize,
        body: &'a [u8],
    },
    /// The node handles the front of its inbox.
    Turn {
        node: usize,
    },
    /// The node sends the first datum that waits for `dest`.
    Send {
        node: usize,
        dest: usize,
    },
    /// The node asks for a route to `dest`.
    Ask {
        node: usize,
        dest: usize,
    },
    /// The link between two different nodes is made, both ways.
    Link {
        a: usize,
        b: usize,
    },
    /// The link between two different nodes is cut, both ways.
    Cut {
        a: usize,
        b: usize,
    },
    /// The copy of this id joins the inbox of its receiver.
    Deliver {
        id: u64,
    },
    /// The copy of this id is lost.
    Lose {
        id: u64,
    },
    /// The copy of this id is doubled: a second copy joins it in flight.
    Double {
        id: u64,
    },
}

/// Which variant of the protocol a node runs.
#[derive(Clone, Copy, Debug, PartialEq, Eq)]
pub enum Variant {
    /// The protocol as AWN defines it.
    Base,
    /// Requests are told apart by their originator's sequence number, not by their id.
    Number,
    /// A reply is passed on by a node that isn't its originator and has valid routes to both ends,
    /// with the hops and number of the node's own entry.
    Reply,
    /// Route errors are broadcast.
    Error,
}

/// Which counter a step would raise past its field's greatest value.
#[derive(Clone, Copy, Debug, PartialEq, Eq)]
pub enum Full {
    /// A hop count past 255.
    Hops,
    /// A sequence number past 4294967295.
    Number,
    /// A request id past 4294967295.
    Id,
}

/// The kind of a packet.
#[derive(Clone, Copy, Debug, PartialEq, Eq)]
pub enum Kind {
    Data,
    Rreq,
    Rrep,
    Rerr,
}

/// What waits in an inbox.
#[derive(Drop)]
pub enum Item {
    /// A datum given to this node.
    New { dest: usize, body: Bytes },
    /// A packet from a neighbour.
    Heard { from: usize, bytes: Bytes },
}

/// A copy of a packet in flight. Ids count from 1 over a whole run.
#[derive(Drop)]
pub struct Flying {
    pub id: u64,
    pub from: usize,
    pub to: usize,
    pub bytes: Bytes,
}

/// A view of a copy in flight. Copies of one cast share the packet.
#[derive(Clone, Copy)]
pub struct FlyingView<'a> {
    pub id: u64,
    pub from: usize,
    pub to: usize,
    pub bytes: &'a [u8],
}

/// To whom a packet goes.
#[derive(Clone, Copy)]
pub enum Cast {
    Nothing,
    One(usize),
    Many(NodeSet),
    All,
}

/// What a node's step did besides making its new state.
#[derive(Clone, Copy)]
pub struct Effect {
    /// The datum was delivered here.
    pub deliver: bool,
    /// The datum was dropped.
    pub lost: bool,
    /// The next hop that a unicast failed to reach.
    pub broken: Option<usize>,
    pub cast: Cast,
}

/// What a turn took from the inbox.
#[derive(Drop)]
pub enum Took {
    /// A datum for the node itself.
    Own {
        body: Bytes,
    },
    /// A datum that now waits for a route to `dest`.
    Stored {
        dest: usize,
    },
    /// A packet from a neighbour.
    Heard {
        from: usize,
        kind: Kind,
        bytes: Bytes,
    },
}

/// The copies of one cast. Their ids count from `first`, in ascending order of the receivers.
#[derive(Clone, Copy)]
pub struct Air {
    pub to: NodeSet,
    pub first: u64,
}

/// What a step did.
#[derive(Drop)]
pub enum Done {
    /// Nothing: the event wasn't enabled.
    Idle,
    /// A datum joined an inbox, or a link changed.
    Changed,
    /// A turn: what it took, its effect, and the copies of its cast.
    Taken {
        took: Took,
        effect: Effect,
        air: Air,
    },
    /// A datum that waited was sent, or a request was made: the effect, and the copies of the cast.
    Sent {
        effect: Effect,
        air: Air,
    },
    /// A copy joined its receiver's inbox.
    Heard {
        from: usize,
        to: usize,
    },
    /// This copy was lost.
    Lost {
        flying: Flying,
    },
    /// A copy was doubled: the new copy's id and receiver, and whether it is of a data packet.
    Doubled {
        id: u64,
        to: usize,
        parcel: bool,
    },
}
