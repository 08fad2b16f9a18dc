//! A running router: its node, the peers in range, and its counts.
ghost use Rattle.std.specs.Prelude.{◌≡◌, [], length, Some};
ghost use Rattle.mesh_base.specs.Meshes.{first_at};
ghost use Rattle.mesh_base.specs.declared.events.Variant.TheVariants.{Base};
ghost use Rattle.aodv_model.specs.Cores.{opening};
ghost use Rattle.mesh_router.specs.Routers as routers;

use aodv_node::Node;
use mesh_base::{Mesh, NodeSet};
use mesh_script::Peers;
use std::marker::Model;

/// A running router. Its mesh is fixed.
#[derive(Drop)]
pub struct Router {
    pub(crate) peers: Peers,
    pub(crate) node: Node,
    pub(crate) range: NodeSet,
    pub(crate) heard: u64,
    pub(crate) sent: u64,
    pub(crate) dropped: u64,
}

impl Model for Router {
    ghost use Rattle.mesh_router.specs.Routers.{Router};
    ghost use Rattle.mesh_router.specs.Seen.{router_code, IsSound};

    ghost Value = { Router };

    ghost coded = { router_code };

    ghost view = { λ r. record {
      peers = r.peers;
      core = r.node.core;
      queue = r.node.items;
      range = r.range;
      heard = r.heard;
      sent = r.sent;
      dropped = r.dropped;
    } };

    ghost invariant = { λ r. IsSound r.peers r.node r.range };
}

// All nodes of a mesh.
#[tactic(auto, unfolding(crate::specs::Routers::all_below))]
fn all_of(mesh: &Mesh) -> NodeSet
    ensures { result ≡ routers.all_below (length mesh.now) }
{
    let mut all = NodeSet::new();
    for x in 0..mesh.len() {
        all.add(x);
    }
    all
}

impl Router {
    /// The router of these peers, with its node in the opening state: all peers are in range.
    #[tactic(auto, unfolding(crate::specs::Routers::fresh_at))]
    pub(crate) fn with(peers: Peers, node: Node, me: usize) -> Router
        requires me { peers.me ≡ Some me }
        requires core { node.core ≡ opening Base me (first_at peers.mesh me) }
        requires items { node.items ≡ [] }
        requires size { node.size ≡ length peers.mesh }
        ensures { result ≡ routers.fresh_at peers me }
    {
        let mut range = all_of(peers.mesh());
        // There are at most 200 nodes.
        let _nodes = peers.mesh().len();
        range.remove(me);
        Router {
            peers,
            node,
            range,
            heard: 0,
            sent: 0,
            dropped: 0,
        }
    }

    /// Its mesh and its peers.
    pub fn peers(&self) -> &Peers
        ensures { result.now ≡ self.now.peers }
    {
        &self.peers
    }
}
