//! What may be done next: the first step of each kind, at the least node and destination. The node
//! is read from the sets that a world keeps, and not searched for.
ghost use Rattle.std.specs.Prelude.{◌≡◌, ◌<◌, List, length, IfSome};
ghost use Rattle.mesh_base.specs.Meshes.{Nodes};
ghost use Rattle.aodv_node.specs.Seen.{NodeSeen};
ghost use Rattle.mesh_model.specs.Choices as model;
ghost use Rattle.mesh_world.specs.Noted.{AreReadyIn, InEachWorld};

use crate::ready::Ready;
use aodv_node::Node;

/// The least node that may take a turn.
pub(crate) fn first_turn(ready: &Ready) -> Option<usize>
    ensures first { (nodes : List NodeSeen) →
        InEachWorld nodes ready.now (λ w. result ≡ model.first_turn w) }
    ensures within { (nodes : List NodeSeen) →
        InEachWorld nodes ready.now (λ w. IfSome result (λ x. x < length nodes)) }
{
    ready.first_turn()
}

/// The least node that may send a datum that waits, and the least destination of such a datum.
pub(crate) fn first_send(ready: &Ready, nodes: &[Node]) -> Option<(usize, usize)>
    requires ready { (mesh : Nodes) × AreReadyIn mesh nodes.now ready.now }
    ensures first { InEachWorld nodes.now ready.now (λ w. result ≡ model.first_send w) }
    ensures within { IfSome result (λ p. (p.0 < length nodes.now) × (p.1 < length nodes.now)) }
{
    let x = ready.first_sender()?;
    let dest = nodes[x].sendable().next_from(0)?;
    Some((x, dest))
}

/// The least node that may ask for a route, and the least destination for which it may.
pub(crate) fn first_ask(ready: &Ready, nodes: &[Node]) -> Option<(usize, usize)>
    requires ready { (mesh : Nodes) × AreReadyIn mesh nodes.now ready.now }
    ensures first { InEachWorld nodes.now ready.now (λ w. result ≡ model.first_ask w) }
    ensures within { IfSome result (λ p. (p.0 < length nodes.now) × (p.1 < length nodes.now)) }
{
    let x = ready.first_asker()?;
    let dest = nodes[x].askable().next_from(0)?;
    Some((x, dest))
}
