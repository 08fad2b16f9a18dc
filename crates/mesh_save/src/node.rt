//! Putting a node into an encoder.
ghost use Rattle.std.specs.Prelude.{◌≡◌, ◌≤◌};
ghost use Rattle.mesh_base.specs.declared.limits.TheConstants.{MOST_NODES};
ghost use Rattle.mesh_checkpoint.specs.Seen.{listed_node};
ghost use Rattle.mesh_save.specs.Bytes.{node_bytes};
ghost use Rattle.mesh_save.specs.Narrow.{IsNarrow};

use crate::encoder::Encoder;
use crate::fields::put32;
use crate::inbox::put_inbox;
use crate::requests::put_asked;
use crate::routes::put_routes;
use crate::store::put_store;
use aodv_node::Node;

/// Puts a node of a mesh of this many.
pub(crate) fn put_node<P: Encoder>(encoder: &mut P, node: &Node, nodes: usize)
    requires size { node.now.size ≡ nodes }
    requires few { nodes ≤ MOST_NODES }
    ensures bytes { P.wrote encoder.old (node_bytes (listed_node node.now)) encoder.new }
    ensures narrow { IsNarrow nodes node.now.core }
{
    put32(encoder, u64::from(node.sn()));
    put_routes(encoder, node, nodes);
    put_asked(encoder, node.asked(), nodes);
    put_store(encoder, node.waiting(), nodes);
    put_inbox(encoder, node.inbox());
}
