//! How many data there are.
ghost use Rattle.std.specs.Prelude.{◌≡◌, ◌<◌, ◌+◌, ◌^◌};
ghost use Rattle.mesh_base.specs.Meshes.{Nodes};
ghost use Rattle.mesh_model.specs.Accounts as model;
ghost use Rattle.mesh_model.specs.Accounts.{any};
ghost use Rattle.mesh_world.specs.Counted.{has_datum, waiting_at, queued_in, AreCounted, IsCountOf};

use aodv_inbox::Inbox;
use aodv_node::Node;
use aodv_wire::is_data;
use mesh_base::Item;
use mesh_radio::Radio;

/// Where the data of a world are.
#[derive(Clone, Copy, PartialEq, Eq)]
pub struct Totals {
    /// How many data wait in stores for a route.
    pub waiting: u64,
    /// How many are in inboxes, given or in packets that were heard.
    pub queued: u64,
    /// How many are in packets in flight.
    pub flying: u64,
}

/// Counts the data. All destinations with data and all items are looked at.
pub(crate) fn count_data(nodes: &[Node], radio: &Radio) -> Totals
    requires few { (mesh : Nodes) × AreCounted mesh nodes.now radio.now }
    ensures waiting { IsCountOf nodes.now radio.now (model.waiting any) result.waiting }
    ensures queued { IsCountOf nodes.now radio.now (model.queued_data any) result.queued }
    ensures flying { IsCountOf nodes.now radio.now (model.in_flight any) result.flying }
{
    let mut waiting = 0;
    let mut queued = 0;
    for node in nodes {
        waiting += count_waiting(node);
        queued += count_queued(node.inbox());
    }
    Totals {
        waiting,
        queued,
        flying: radio.data_count() as u64,
    }
}

// The data in the node's store.
fn count_waiting(node: &Node) -> u64
    requires { waiting_at node.now < 2 ^ 64 }
    ensures { result ≡ waiting_at node.now }
{
    let waiting = node.waiting();
    let dests = waiting.dests();
    let mut count = 0;
    let mut start = 0;
    while let Some(dest) = dests.next_from(start) {
        count += waiting.count(dest) as u64;
        start = dest + 1;
    }
    count
}

// The data in an inbox.
fn count_queued(inbox: &Inbox) -> u64
    requires { queued_in inbox.now.items < 2 ^ 64 }
    ensures { result ≡ queued_in inbox.now.items }
{
    let mut count = 0;
    for k in 0..inbox.len() {
        if has_datum(inbox.at(k)) {
            count += 1;
        }
    }
    count
}

// Whether the item is a datum, or a data packet.
fn has_datum(item: &Item) -> bool
    ensures { result ≡ has_datum item.now }
{
    match item {
        Item::New { .. } => true,
        Item::Heard { bytes, .. } => is_data(bytes.as_slice()),
    }
}
