//! Where routes lead.
ghost use Rattle.std.specs.Prelude.{◌≡◌, ◌<◌, length};
ghost use Rattle.std.specs.FinMap as maps;
ghost use Rattle.mesh_model.specs.Routes as model;
ghost use Rattle.mesh_world.specs.Ends.{end_in, IsEndIn, AreOfWorld, InEachWorld};

use aodv_model::Flag;
use aodv_node::Node;

/// Where a route ends.
#[derive(Clone, Copy, Debug, PartialEq, Eq)]
pub enum End {
    /// At its destination, after this many hops.
    Arrived { hops: usize },
    /// At another node, after this many hops: that node has no valid entry for the destination.
    Stuck { at: usize, hops: usize },
}

/// Goes from each node to the next hop of its valid entry for `to`, until it arrives there or a
/// node has no such entry. It needn't remember the nodes: routes form no cycle.
pub(crate) fn follow(nodes: &[Node], from: usize, to: usize) -> End
    requires nodes { AreOfWorld nodes.now }
    requires from { from < length nodes.now }
    requires to { to < length nodes.now }
    ensures value { InEachWorld nodes.now (λ w. end_in result ≡ model.route_end w from to) }
    ensures walk { InEachWorld nodes.now (λ w. model.IsRouteEnd w from to (end_in result)) }
    ensures within { IsEndIn (length nodes.now) result }
{
    let mut at = from;
    let mut hops = 0;
    while at != to {
        let Some(next) = next_hop(&nodes[at], to) else {
            return End::Stuck { at, hops };
        };
        at = next;
        hops += 1;
    }
    End::Arrived { hops }
}

// The next hop of the node's valid entry for d.
fn next_hop(node: &Node, d: usize) -> Option<usize>
    requires { d < node.now.size }
    ensures { result ≡ model.next_in (maps.get node.now.core.rt d) }
{
    let entry = node.entry(d)?;
    match entry.flag {
        Flag::Val => Some(entry.next),
        Flag::Inv => None,
    }
}
