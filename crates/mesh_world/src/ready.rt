//! Which nodes may take a turn, send or ask.
ghost use Rattle.std.specs.Prelude.{◌≡◌, ◌<◌, IfSome};
ghost use Rattle.std.specs.FinSet as sets;
ghost use Rattle.mesh_base.specs.Members.{IsLeastFrom};
ghost use Rattle.mesh_world.specs.Noted.{none_ready, ready_with, with_turn, with_or_without, has_below};

use aodv_node::Node;
use mesh_base::NodeSet;
use std::marker::Model;

/// The nodes that may take a turn, those that may send, and those that may ask. The sets are kept
/// from step to step, so that the next event is chosen without a search.
#[derive(Drop)]
pub(crate) struct Ready {
    turns: NodeSet,
    sends: NodeSet,
    asks: NodeSet,
}

impl Model for Ready {
    ghost use Rattle.mesh_world.specs.Kept as kept;
    ghost use Rattle.mesh_world.specs.Noted.{ready_code};

    ghost Value = { kept.Ready };

    ghost coded = { ready_code };

    ghost view = { λ r. record { turns = r.turns; sends = r.sends; asks = r.asks } };
}

impl Ready {
    /// No node may do anything.
    pub(crate) fn new() -> Ready
        ensures { result ≡ none_ready }
    {
        Ready {
            turns: NodeSet::new(),
            sends: NodeSet::new(),
            asks: NodeSet::new(),
        }
    }

    /// Notes what node x, one of this many nodes, may do now.
    #[inline(always)]
    pub(crate) fn note(&mut self, x: usize, node: &Node, nodes: usize)
        requires { x < 256 }
        ensures { self.new ≡ ready_with self.old x node.now nodes }
    {
        put(&mut self.turns, x, !node.inbox().is_empty());
        put(&mut self.sends, x, has_below(&node.sendable(), nodes));
        put(&mut self.asks, x, has_below(&node.askable(), nodes));
    }

    /// Notes that an item has joined the inbox of node x. Nothing else of the node has changed.
    pub(crate) fn note_item(&mut self, x: usize)
        requires { x < 256 }
        ensures { self.new ≡ with_turn self.old x }
    {
        self.turns.add(x);
    }

    /// The least node that may take a turn.
    pub(crate) fn first_turn(&self) -> Option<usize>
        ensures least { IsLeastFrom self.now.turns 0 result }
        ensures below { IfSome result (λ x. x < 256) }
    {
        self.turns.next_from(0)
    }

    /// The least node that may send.
    pub(crate) fn first_sender(&self) -> Option<usize>
        ensures least { IsLeastFrom self.now.sends 0 result }
        ensures below { IfSome result (λ x. x < 256) }
    {
        self.sends.next_from(0)
    }

    /// The least node that may ask.
    pub(crate) fn first_asker(&self) -> Option<usize>
        ensures least { IsLeastFrom self.now.asks 0 result }
        ensures below { IfSome result (λ x. x < 256) }
    {
        self.asks.next_from(0)
    }
}

// x joins the set, or leaves it.
fn put(set: &mut NodeSet, x: usize, joins: bool)
    requires { x < 256 }
    ensures { set.new ≡ with_or_without joins set.old x }
{
    if joins {
        set.add(x);
    } else {
        set.remove(x);
    }
}

// Whether a member is below n.
fn has_below(set: &NodeSet, n: usize) -> bool
    ensures { result ≡ has_below n (sets.contains set.now) }
{
    match set.next_from(0) {
        Some(least) => least < n,
        None => false,
    }
}
