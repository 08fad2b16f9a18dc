//! What a call leaves in the caller's own memory. A list there is an array and how many of its
//! first elements count; the others are 0.
ghost use Rattle.std.specs.Prelude.{◌≡◌, unwrap_or};
ghost use Rattle.aodv_c.specs.Codes.{code_of, turn_code, send_code, ask_code, entry_code};
ghost use Rattle.aodv_c.specs.Laid.{padded, LaysOut, IsLaid, LaysAddrs, LaysRow, IsRowLaid};

use crate::codes::{
    DONE, NO_ENTRY, STRANGER, ask_code, cast_code, dest_of, from_of, send_code, took_code,
    turn_code,
};
use aodv_model::{Flag, Known};
use aodv_router::{AskError, Body, SendError, Stranger, TurnError};
use mesh_base::{LONGEST_DATUM, LONGEST_PACKET, MOST_NODES, Packet};

/// What a turn, a send or a request has done. The packet is to be cast as it is.
#[repr(C)]
#[derive(Drop)]
pub struct Outcome {
    /// What was taken from the inbox: `TOOK_NOTHING` and the like.
    pub took: u32,
    /// The neighbour that a packet came from, or 0.
    pub from: u32,
    /// The destination of a datum that now waits, or 0.
    pub dest: u32,
    /// The datum in `body` has come to its destination, which is this router.
    pub delivered: bool,
    /// A datum was dropped. If a turn took it, it is the one in `body`.
    pub lost: bool,
    /// A unicast to `broke` couldn't reach it, since it isn't near.
    pub broken: bool,
    /// The next hop that wasn't near, or 0.
    pub broke: u32,
    /// To whom the packet goes: `CAST_NOTHING` and the like.
    pub cast: u32,
    /// How many neighbours are named.
    pub to_len: u32,
    /// The neighbours to which the packet goes, if they are named.
    pub to: [u32; MOST_NODES],
    /// How many bytes the packet has.
    pub packet_len: u32,
    /// The packet.
    pub packet: [u8; LONGEST_PACKET],
    /// How many bytes the datum has.
    pub body_len: u32,
    /// The datum that was taken, unless it waits now.
    pub body: [u8; LONGEST_DATUM],
}

/// Some addresses, in rising order.
#[repr(C)]
#[derive(Drop)]
pub struct Addrs {
    /// How many there are.
    pub len: u32,
    /// The addresses.
    pub addrs: [u32; MOST_NODES],
}

/// An entry of the routing table.
#[repr(C)]
#[derive(Drop)]
pub struct Row {
    /// The destination's sequence number. 0 is unknown.
    pub dsn: u32,
    /// Whether that number is known.
    pub known: bool,
    /// Whether the route is valid.
    pub valid: bool,
    /// The number of hops to the destination.
    pub hops: u32,
    /// The next hop towards the destination.
    pub next: u32,
    /// How many precursors there are.
    pub pre_len: u32,
    /// The precursors: neighbours that were told of this route and may use it.
    pub pre: [u32; MOST_NODES],
}

// ---- lists

fn addrs_of(addrs: &aodv_router::Addrs) -> [u32; MOST_NODES]
    ensures { result ≡ padded MOST_NODES addrs.now.items }
{
    let mut list = [0; MOST_NODES];
    let from = addrs.as_slice();
    list[..from.len()].copy_from_slice(from);
    list
}

fn packet_of(packet: &Packet) -> [u8; LONGEST_PACKET]
    ensures { result ≡ padded LONGEST_PACKET packet.now.items }
{
    let mut list = [0; LONGEST_PACKET];
    let from = packet.as_slice();
    list[..from.len()].copy_from_slice(from);
    list
}

fn body_of(body: &Body) -> [u8; LONGEST_DATUM]
    ensures { result ≡ padded LONGEST_DATUM body.now.items }
{
    let mut list = [0; LONGEST_DATUM];
    let from = body.as_slice();
    list[..from.len()].copy_from_slice(from);
    list
}

impl Addrs {
    /// These addresses.
    pub(crate) fn of(addrs: &aodv_router::Addrs) -> Addrs
        ensures { LaysAddrs addrs.now.items result }
    {
        Addrs {
            len: addrs.len() as u32,
            addrs: addrs_of(addrs),
        }
    }
}

// ---- outcomes

// The address, or 0.
fn or_zero(a: Option<u32>) -> u32
    ensures { result ≡ unwrap_or a 0 }
{
    match a {
        Some(a) => a,
        None => 0,
    }
}

impl Outcome {
    // The outcome of a router.
    fn of(o: &aodv_router::Outcome) -> Outcome
        ensures { LaysOut o.now result }
    {
        Outcome {
            took: took_code(o.took),
            from: from_of(o.took),
            dest: dest_of(o.took),
            delivered: o.delivered,
            lost: o.lost,
            broken: o.broken.is_some(),
            broke: or_zero(o.broken),
            cast: cast_code(o.cast),
            to_len: o.to.len() as u32,
            to: addrs_of(&o.to),
            packet_len: o.packet.len() as u32,
            packet: packet_of(&o.packet),
            body_len: o.body.len() as u32,
            body: body_of(&o.body),
        }
    }
}

/// Lays out the outcome of a turn, if there is one, and returns the number of the answer.
pub(crate) fn put_turn(answer: &Result<aodv_router::Outcome, TurnError>, out: &mut Outcome) -> u32
    ensures coded { result ≡ code_of turn_code answer.now }
    ensures laid { IsLaid answer.now out.old out.new }
{
    match answer {
        Ok(o) => {
            *out = Outcome::of(o);
            DONE
        }
        Err(why) => turn_code(why),
    }
}

/// Lays out the outcome of a send, if there is one, and returns the number of the answer.
pub(crate) fn put_send(answer: &Result<aodv_router::Outcome, SendError>, out: &mut Outcome) -> u32
    ensures coded { result ≡ code_of send_code answer.now }
    ensures laid { IsLaid answer.now out.old out.new }
{
    match answer {
        Ok(o) => {
            *out = Outcome::of(o);
            DONE
        }
        Err(why) => send_code(why),
    }
}

/// Lays out the outcome of a request, if there is one, and returns the number of the answer.
pub(crate) fn put_ask(answer: &Result<aodv_router::Outcome, AskError>, out: &mut Outcome) -> u32
    ensures coded { result ≡ code_of ask_code answer.now }
    ensures laid { IsLaid answer.now out.old out.new }
{
    match answer {
        Ok(o) => {
            *out = Outcome::of(o);
            DONE
        }
        Err(why) => ask_code(why),
    }
}

// ---- entries

impl Row {
    // The row of a router.
    fn of(r: &aodv_router::Row) -> Row
        ensures { LaysRow r.now result }
    {
        Row {
            dsn: r.dsn,
            known: r.dsk == Known::Kno,
            valid: r.flag == Flag::Val,
            hops: u32::from(r.hops),
            next: r.next,
            pre_len: r.pre.len() as u32,
            pre: addrs_of(&r.pre),
        }
    }
}

/// Lays out an entry, if there is one, and returns the number of the answer.
pub(crate) fn put_row(answer: &Result<Option<aodv_router::Row>, Stranger>, row: &mut Row) -> u32
    ensures coded { result ≡ entry_code answer.now }
    ensures laid { IsRowLaid answer.now row.old row.new }
{
    match answer {
        Ok(Some(r)) => {
            *row = Row::of(r);
            DONE
        }
        Ok(None) => NO_ENTRY,
        Err(_) => STRANGER,
    }
}
