//! Whether requests and replies are honest.
ghost use Rattle.std.specs.Prelude.{◌≡◌, ◌<◌, ◌↔◌, IsTrue, length};
ghost use Rattle.aodv_model.specs.Soundness.{IsMessageInMesh};
ghost use Rattle.aodv_wire.specs.declared.message.Message.TheVariants as messages;
ghost use Rattle.aodv_meaning.specs.Meaning.{in_mesh, meaning, request_in, reply_in, stranger};
ghost use Rattle.mesh_model.specs.Invariants.{AtLeast, IsAtLeast, IsHonestRequest, IsHonestReply};
ghost use Rattle.mesh_meaning.specs.Packets.{IsWritten};
ghost use Rattle.mesh_sound.specs.Claims.{AreOf, AreSized, table, IsHonestIfRequest, IsHonestIfReply};

use aodv_model::{Entry, Flag};
use aodv_node::Node;
use aodv_wire::{Message, Rrep, Rreq, read};
use mesh_base::Mesh;

// Whether the entry's number is above n; or it is n, and the entry is valid with at most h hops.
fn is_at_least(entry: &Entry, n: u32, h: u8) -> bool
    ensures { IsTrue result ↔ IsAtLeast entry.now n h }
{
    if n < entry.dsn {
        return true;
    }
    match entry.flag {
        Flag::Val => entry.dsn == n && entry.hops <= h,
        Flag::Inv => false,
    }
}

/// Whether node x has an entry for d whose number is above n; or is n, and the entry is valid with
/// at most h hops.
pub(crate) fn has_at_least(nodes: &[Node], x: usize, d: usize, n: u32, h: u8) -> bool
    requires sizes { AreSized nodes.now }
    requires node { x < length nodes.now }
    requires dest { d < length nodes.now }
    ensures { IsTrue result ↔ AtLeast (table nodes.now x) d n h }
{
    match nodes[x].entry(d) {
        Some(entry) => is_at_least(&entry, n, h),
        None => false,
    }
}

// Whether a request from this node is honest.
fn is_honest_request(mesh: &Mesh, nodes: &[Node], from: usize, m: &Rreq) -> bool
    requires nodes { AreOf mesh.now nodes.now }
    requires from { from < length mesh.now }
    requires known { stranger mesh.now (messages.Rreq m.now) ≡ None }
    requires says { IsMessageInMesh (length mesh.now) (in_mesh mesh.now (messages.Rreq m.now)) }
    ensures { IsTrue result
        ↔ IsHonestRequest (table nodes.now from) from (request_in mesh.now m.now) }
{
    let oip = mesh.index_in(m.oip);
    from == oip || has_at_least(nodes, from, oip, m.osn, m.hops)
}

// Whether a reply from this node is honest.
fn is_honest_reply(mesh: &Mesh, nodes: &[Node], from: usize, m: &Rrep) -> bool
    requires nodes { AreOf mesh.now nodes.now }
    requires from { from < length mesh.now }
    requires known { stranger mesh.now (messages.Rrep m.now) ≡ None }
    requires says { IsMessageInMesh (length mesh.now) (in_mesh mesh.now (messages.Rrep m.now)) }
    ensures { IsTrue result
        ↔ IsHonestReply (table nodes.now from) from (reply_in mesh.now m.now) }
{
    let dip = mesh.index_in(m.dip);
    from == dip || has_at_least(nodes, from, dip, m.dsn, m.hops)
}

/// Whether a packet from this node, if it is a request, is honest.
pub(crate) fn is_honest_if_request(mesh: &Mesh, nodes: &[Node], from: usize, bytes: &[u8]) -> bool
    requires nodes { AreOf mesh.now nodes.now }
    requires from { from < length mesh.now }
    requires written { IsWritten mesh.now bytes.now }
    ensures { IsTrue result
        ↔ IsHonestIfRequest (table nodes.now from) from (meaning mesh.now bytes.now) }
{
    // The contract of `len` says that the addresses of a mesh rise.
    let _nodes = mesh.len();
    match read(bytes) {
        Ok(Message::Rreq(m)) => is_honest_request(mesh, nodes, from, &m),
        _ => true,
    }
}

/// Whether a packet from this node, if it is a reply, is honest.
pub(crate) fn is_honest_if_reply(mesh: &Mesh, nodes: &[Node], from: usize, bytes: &[u8]) -> bool
    requires nodes { AreOf mesh.now nodes.now }
    requires from { from < length mesh.now }
    requires written { IsWritten mesh.now bytes.now }
    ensures { IsTrue result
        ↔ IsHonestIfReply (table nodes.now from) from (meaning mesh.now bytes.now) }
{
    // The contract of `len` says that the addresses of a mesh rise.
    let _nodes = mesh.len();
    match read(bytes) {
        Ok(Message::Rrep(m)) => is_honest_reply(mesh, nodes, from, &m),
        _ => true,
    }
}
