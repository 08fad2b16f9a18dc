//! Whether given parts are those of a world, and what their nodes may do next.
ghost use Rattle.std.specs.Prelude.{◌≡◌, length, IfSome, IfNone};
ghost use Rattle.std.specs.List.{AllByRecursion};
ghost use Rattle.aodv_node.specs.Seen.{IsSoundNode};
ghost use Rattle.mesh_sound.specs.Claims.{AreOf};
ghost use Rattle.mesh_world.specs.Kept.{IsReadyFor};
ghost use Rattle.mesh_world.specs.Restored.{AreSoundParts, IsFirstPart};

use crate::ready::Ready;
use aodv_node::Node;
use mesh_base::Mesh;
use mesh_radio::Radio;
use mesh_sound::{Claim, first_edge, holds_of_all};
use thiserror::Error;

/// A part that isn't as in a world.
#[derive(Clone, Copy, Debug, PartialEq, Eq, Error)]
pub enum Part {
    /// The state of this node, because of its table alone: the rest is in order once it is read.
    #[error("a node's state is out of order")]
    Node { node: usize },
    /// An item in an inbox, or a copy in flight: no node of the mesh writes such a packet.
    #[error("a packet is not as a node writes it")]
    Item,
    /// A route request says more than its sender's table has.
    #[error("a request tells more than its sender knows")]
    Request,
    /// A route reply says more than its sender's table has.
    #[error("a reply tells more than its sender knows")]
    Reply,
    /// The valid entry of this node for this destination isn't backed by the table of its next hop.
    #[error("a route is not backed by its next hop")]
    Edge { node: usize, dest: usize },
}

/// The first part that isn't as in a world, if there is one. Each item and each copy is looked at
/// up to three times, and each entry once, with that of its next hop.
pub(crate) fn first_unsound(mesh: &Mesh, nodes: &[Node], radio: &Radio) -> Option<Part>
    requires nodes { AreOf mesh.now nodes.now }
    requires size { radio.now.size ≡ length mesh.now }
    ensures none { IfNone result (AreSoundParts mesh.now nodes.now radio.now.flying) }
    ensures some { IfSome result (IsFirstPart mesh.now nodes.now radio.now.flying) }
{
    if !holds_of_all(Claim::Written, mesh, nodes, radio) {
        return Some(Part::Item);
    }
    if !holds_of_all(Claim::Request, mesh, nodes, radio) {
        return Some(Part::Request);
    }
    if !holds_of_all(Claim::Reply, mesh, nodes, radio) {
        return Some(Part::Reply);
    }
    let (node, dest) = first_edge(nodes)?;
    Some(Part::Edge { node, dest })
}

/// What these nodes may do next. Each node is looked at once.
pub(crate) fn ready_for(mesh: &Mesh, nodes: &[Node]) -> Ready
    requires { length nodes.now ≡ length mesh.now }
    ensures ready { IsReadyFor mesh.now nodes.now result }
    ensures sound { AllByRecursion IsSoundNode nodes.now }
{
    let count = mesh.len();
    let mut ready = Ready::new();
    for x in 0..count {
        let node = &nodes[x];
        // The contract of `sn` says that the node is in order.
        let _number = node.sn();
        ready.note(x, node, count);
    }
    ready
}
