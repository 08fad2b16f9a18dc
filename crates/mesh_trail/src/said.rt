//! What a message says of routes.
ghost use Rattle.std.specs.Prelude.{◌≡◌, ◌≤◌, ◌<◌, None, length};
ghost use Rattle.mesh_base.specs.Meshes.{index_in};
ghost use Rattle.aodv_wire.specs.Encodes.{refusal};
ghost use Rattle.aodv_meaning.specs.Meaning.{meaning};
ghost use Rattle.mesh_trail.specs.Said.{said_of, IsSaidIn};

use aodv_wire::{Message, read};
use mesh_base::{Addr, Mesh};

/// What a message says of routes.
#[derive(Clone, Copy)]
pub(crate) enum Said {
    /// A datum: it says nothing.
    Parcel,
    /// An error: it says only that its sender is near.
    Error,
    /// A request for `dest`: the route to its originator, with this number and this many hops from
    /// the sender.
    Request {
        origin: usize,
        number: u32,
        hops: u8,
        dest: usize,
    },
    /// A reply: the route to its destination, with this number and this many hops from the sender.
    Reply {
        dest: usize,
        number: u32,
        hops: u8,
    },
}

// The node of an address, or 0 if it is a stranger.
#[tactic(auto, unfolding(mesh_base::specs::Meshes::index_in))]
fn node_of(mesh: &Mesh, a: Addr) -> usize
    ensures value { result ≡ index_in mesh.now a.0 }
    ensures within { 1 ≤ length mesh.now → result < length mesh.now }
{
    mesh.index_of(a).unwrap_or(0)
}

/// What a packet says. For bytes that encode no message it may be anything.
pub(crate) fn read_said(mesh: &Mesh, bytes: &[u8]) -> Said
    ensures value { refusal bytes.now ≡ None → result ≡ said_of (meaning mesh.now bytes.now) }
    ensures within { 1 ≤ length mesh.now → IsSaidIn (length mesh.now) result }
{
    match read(bytes) {
        Ok(Message::Rreq(m)) => Said::Request {
            origin: node_of(mesh, m.oip),
            number: m.osn,
            hops: m.hops,
            dest: node_of(mesh, m.dip),
        },
        Ok(Message::Rrep(m)) => Said::Reply {
            dest: node_of(mesh, m.dip),
            number: m.dsn,
            hops: m.hops,
        },
        Ok(Message::Rerr(_)) => Said::Error,
        Ok(Message::Parcel(_)) => Said::Parcel,
        Err(_) => Said::Parcel,
    }
}
