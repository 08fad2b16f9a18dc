//! What is claimed of all packets that wait or fly.
ghost use Rattle.std.specs.Prelude.{◌≡◌, ◌<◌, ◌↔◌, IsTrue, length};
ghost use Rattle.std.specs.List.{AllByRecursion};
ghost use Rattle.mesh_sound.specs.Packets.{InItem, InEachPacket};
ghost use Rattle.mesh_sound.specs.Claims.{AreOf, Holds, IsReadable};

use crate::honest::{is_honest_if_reply, is_honest_if_request};
use crate::written::is_written;
use aodv_node::Node;
use mesh_base::{Item, Mesh, Packet};
use mesh_radio::Radio;

/// What is claimed of a packet.
#[derive(Clone, Copy, PartialEq, Eq)]
pub enum Claim {
    /// It is as a node of the mesh writes it.
    Written,
    /// If it is another node's request, its sender's table has at least what it says of that node.
    Request,
    /// If it is a reply about another node, its sender's table has at least what it says of it.
    Reply,
}

// Whether the claim holds of a packet from this node.
fn holds(
    claim: Claim,
    mesh: &Mesh,
    nodes: &[Node],
    from: usize,
    bytes: &[u8],
    rewritten: &mut Packet,
) -> bool
    requires nodes { AreOf mesh.now nodes.now }
    requires from { from < length mesh.now }
    requires readable { IsReadable claim mesh.now from bytes.now }
    ensures { IsTrue result ↔ Holds claim mesh.now nodes.now from bytes.now }
{
    match claim {
        Claim::Written => is_written(mesh, bytes, rewritten),
        Claim::Request => is_honest_if_request(mesh, nodes, from, bytes),
        Claim::Reply => is_honest_if_reply(mesh, nodes, from, bytes),
    }
}

// Whether the claim holds of an item's packet. A datum that is given to a node isn't a packet.
fn holds_of_item(
    claim: Claim,
    mesh: &Mesh,
    nodes: &[Node],
    item: &Item,
    rewritten: &mut Packet,
) -> bool
    requires nodes { AreOf mesh.now nodes.now }
    requires from { InItem (λ from _. from < length mesh.now) item.now }
    requires readable { InItem (IsReadable claim mesh.now) item.now }
    ensures { IsTrue result ↔ InItem (Holds claim mesh.now nodes.now) item.now }
{
    match item {
        Item::New { .. } => true,
        Item::Heard { from, bytes } => holds(
            claim,
            mesh,
            nodes,
            *from,
            bytes.as_slice(),
            rewritten,
        ),
    }
}

// Whether the claim holds of each packet in this node's inbox.
fn holds_of_inbox(
    claim: Claim,
    mesh: &Mesh,
    nodes: &[Node],
    node: &Node,
    rewritten: &mut Packet,
) -> bool
    requires nodes { AreOf mesh.now nodes.now }
    requires size { node.now.size ≡ length mesh.now }
    requires readable { AllByRecursion (InItem (IsReadable claim mesh.now)) node.now.items }
    ensures { IsTrue result
        ↔ AllByRecursion (InItem (Holds claim mesh.now nodes.now)) node.now.items }
{
    // The contract of `sn` says that the node is in order: those that it heard are in the mesh.
    let _number = node.sn();
    let inbox = node.inbox();
    for k in 0..inbox.len() {
        if !holds_of_item(claim, mesh, nodes, inbox.at(k), rewritten) {
            return false;
        }
    }
    true
}

// Whether the claim holds of each packet in flight.
fn holds_of_copies(
    claim: Claim,
    mesh: &Mesh,
    nodes: &[Node],
    radio: &Radio,
    rewritten: &mut Packet,
) -> bool
    requires nodes { AreOf mesh.now nodes.now }
    requires size { radio.now.size ≡ length mesh.now }
    requires readable { let flying = radio.now.flying in
        AllByRecursion (λ f. IsReadable claim mesh.now f.from f.bytes) flying }
    ensures { let flying = radio.now.flying in IsTrue result
        ↔ AllByRecursion (λ f. Holds claim mesh.now nodes.now f.from f.bytes) flying }
{
    let mut start = 0;
    let mut hint = 0;
    while let Some(copy) = radio.next_from(start, &mut hint) {
        if !holds(claim, mesh, nodes, copy.from, copy.bytes, rewritten) {
            return false;
        }
        start = copy.id + 1;
    }
    true
}

/// Whether the claim holds of each packet in an inbox of these nodes or in flight. Requests and
/// replies are read once it is known that all packets are written.
pub fn holds_of_all(claim: Claim, mesh: &Mesh, nodes: &[Node], radio: &Radio) -> bool
    requires nodes { AreOf mesh.now nodes.now }
    requires size { radio.now.size ≡ length mesh.now }
    requires readable { InEachPacket (IsReadable claim mesh.now) nodes.now radio.now.flying }
    ensures { IsTrue result
        ↔ InEachPacket (Holds claim mesh.now nodes.now) nodes.now radio.now.flying }
{
    let mut rewritten = Packet::new();
    for node in nodes {
        if !holds_of_inbox(claim, mesh, nodes, node, &mut rewritten) {
            return false;
        }
    }
    holds_of_copies(claim, mesh, nodes, radio, &mut rewritten)
}
