//! Whether bytes are a packet as a node of the mesh writes it.
ghost use Rattle.std.specs.Prelude.{◌≡◌, ◌≤◌, ◌↔◌, IsTrue, None, length};
ghost use Rattle.mesh_base.specs.Meshes.{Nodes};
ghost use Rattle.aodv_model.specs.Soundness.{IsMessageInMesh};
ghost use Rattle.aodv_wire.specs.declared.message.Message.TheVariants as messages;
ghost use Rattle.aodv_wire.specs.RouteError.{IsRising, AreDestinations};
ghost use Rattle.aodv_wire.specs.Encodes.{encoding};
ghost use Rattle.aodv_meaning.specs.Meaning.{in_mesh, stranger, strange_pair, unless_in};
ghost use Rattle.aodv_meaning.specs.Sent.{IsWritable};
ghost use Rattle.mesh_meaning.specs.Packets.{IsWritten};

use aodv_wire::{Message, RerrView, read, write_data, write_rerr, write_rrep, write_rreq};
use arrayvec::ArrayVec;
use mesh_base::{Addr, MOST_NODES, Mesh, Packet};

// Whether both addresses are of nodes of the mesh.
fn are_both_known(mesh: &Mesh, a: Addr, b: Addr) -> bool
    ensures { IsTrue result ↔ (unless_in mesh.now a (unless_in mesh.now b None) ≡ None) }
{
    mesh.index_of(a).is_some() && mesh.index_of(b).is_some()
}

// Whether each destination is a node of the mesh.
fn are_all_known(mesh: &Mesh, m: &RerrView<'_>) -> bool
    ensures { IsTrue result ↔ (strange_pair mesh.now m.now ≡ None) }
{
    for k in 0..m.len() {
        let (a, _) = m.pair(k);
        if !mesh.index_of(a).is_some() {
            return false;
        }
    }
    true
}

// Whether the message names only nodes of the mesh.
fn is_known(mesh: &Mesh, m: &Message<'_>) -> bool
    ensures { IsTrue result ↔ (stranger mesh.now m.now ≡ None) }
{
    match m {
        Message::Rreq(m) => are_both_known(mesh, m.dip, m.oip),
        Message::Rrep(m) => are_both_known(mesh, m.dip, m.oip),
        Message::Rerr(m) => are_all_known(mesh, m),
        Message::Parcel(m) => are_both_known(mesh, m.dip(), m.oip()),
    }
}

// Whether the addresses of a route error rise.
fn is_rising(m: &RerrView<'_>) -> bool
    ensures { IsTrue result ↔ IsRising m.now }
{
    let mut above: u64 = 0;
    for k in 0..m.len() {
        let (a, _) = m.pair(k);
        let number = u64::from(a.0);
        if number < above {
            return false;
        }
        above = number + 1;
    }
    true
}

// Whether the message can be written.
fn is_writable(m: &Message<'_>) -> bool
    ensures { IsTrue result ↔ IsWritable m.now }
{
    match m {
        Message::Rreq(_) => true,
        Message::Rrep(_) => true,
        Message::Rerr(m) => 1 <= m.len() && m.len() <= MOST_NODES && is_rising(m),
        Message::Parcel(_) => true,
    }
}

// Writes the route error again.
fn write_error(m: &RerrView<'_>, out: &mut Packet)
    requires { AreDestinations m.now }
    ensures { out.new.items ≡ encoding (messages.Rerr m.now) }
{
    let mut pairs: ArrayVec<(Addr, u32), MOST_NODES> = ArrayVec::new();
    for k in 0..m.len() {
        pairs.push(m.pair(k));
    }
    write_rerr(pairs.as_slice(), out);
}

// Writes the message again.
fn rewrite(m: &Message<'_>, out: &mut Packet)
    requires writable { IsWritable m.now }
    requires says { (mesh : Nodes) × IsMessageInMesh (length mesh) (in_mesh mesh m.now) }
    ensures { out.new.items ≡ encoding m.now }
{
    match m {
        Message::Rreq(m) => write_rreq(m, out),
        Message::Rrep(m) => write_rrep(m, out),
        Message::Rerr(m) => write_error(m, out),
        Message::Parcel(m) => write_data(m.dip(), m.oip(), m.body(), out),
    }
}

/// Whether the bytes are the packet that is written of what they mean. They are read, and written
/// again into `again`: reserved bits and a lifetime that no node writes aren't part of a message.
pub(crate) fn is_written(mesh: &Mesh, bytes: &[u8], rewritten: &mut Packet) -> bool
    requires some { 1 ≤ length mesh.now }
    ensures { IsTrue result ↔ IsWritten mesh.now bytes.now }
{
    // The contract of `len` says that the addresses of a mesh rise.
    let _nodes = mesh.len();
    let Ok(message) = read(bytes) else {
        return false;
    };
    if !is_known(mesh, &message) || !is_writable(&message) {
        return false;
    }
    rewrite(&message, rewritten);
    rewritten.as_slice() == bytes
}
