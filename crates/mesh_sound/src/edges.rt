//! Whether valid routes are backed by their next hops.
ghost use Rattle.std.specs.Prelude.{◌<◌, ◌↔◌, ℕ, IsTrue, IfSome, IfNone, length};
ghost use Rattle.mesh_sound.specs.Claims.{AreSized};
ghost use Rattle.mesh_sound.specs.Edges.{IsBackedAt, AreBacked, IsFirstEdge};

use crate::honest::has_at_least;
use aodv_model::Flag;
use aodv_node::Node;

// Whether the entry of node x for d, if it has one, is backed by its next hop.
fn is_backed(nodes: &[Node], x: usize, d: usize) -> bool
    requires sizes { AreSized nodes.now }
    requires node { x < length nodes.now }
    requires dest { d < length nodes.now }
    ensures { IsTrue result ↔ IsBackedAt nodes.now x d }
{
    let node = &nodes[x];
    // The contract of `sn` says that the node is in order: next hops are in the mesh, and no entry
    // has 0 hops.
    let _number = node.sn();
    let Some(entry) = node.entry(d) else {
        return true;
    };
    match entry.flag {
        Flag::Inv => true,
        Flag::Val => {
            entry.next == d || has_at_least(nodes, entry.next, d, entry.dsn, entry.hops - 1)
        }
    }
}

// The least destination for which the entry of node x isn't backed by its next hop.
fn first_dest(nodes: &[Node], x: usize) -> Option<usize>
    requires sizes { AreSized nodes.now }
    requires node { x < length nodes.now }
    ensures none { IfNone result ((d : ℕ) → IsBackedAt nodes.now x d) }
    ensures fails { IfSome result (λ d. ¬ (IsBackedAt nodes.now x d)) }
    ensures least { IfSome result (λ d. (q : ℕ) → q < d → IsBackedAt nodes.now x q) }
    ensures within { IfSome result (λ d. d < length nodes.now) }
{
    // The contract of `sn` says that the node is in order: it has entries only for nodes of the
    // mesh.
    let _number = nodes[x].sn();
    for d in 0..nodes.len() {
        if !is_backed(nodes, x, d) {
            return Some(d);
        }
    }
    None
}

/// The first entry that isn't backed by its next hop, as its node and its destination: the least
/// such node, and the least such destination of that node. Each entry is looked at once, with that
/// of its next hop.
pub fn first_edge(nodes: &[Node]) -> Option<(usize, usize)>
    requires sizes { AreSized nodes.now }
    ensures none { IfNone result (AreBacked nodes.now) }
    ensures first { IfSome result (λ p. IsFirstEdge nodes.now p.0 p.1) }
    ensures within { let size = length nodes.now in
        IfSome result (λ p. (p.0 < size) × (p.1 < size)) }
{
    for x in 0..nodes.len() {
        if let Some(d) = first_dest(nodes, x) {
            return Some((x, d));
        }
    }
    None
}
