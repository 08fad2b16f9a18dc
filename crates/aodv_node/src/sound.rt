//! Whether parts that were kept can be those of a node.
ghost use Rattle.std.specs.Prelude.{◌<◌, ◌↔◌, IsTrue};
ghost use Rattle.std.specs.List.{AllByRecursion};
ghost use Rattle.aodv_inbox.specs.Queues.{IsItem};
ghost use Rattle.aodv_model.specs.Soundness.{AreBelow, HasSoundNumber, IsEntryInMesh, IsSoundTable};
ghost use Rattle.aodv_node.specs.Seen.{IsItemAt};

use aodv_inbox::Inbox;
use aodv_model::{Entry, Known};
use aodv_table::{RowTable, Table};
use mesh_base::{Item, NodeSet};

// Whether the number of an entry for d is sound.
fn has_sound_number(d: usize, e: &Entry) -> bool
    ensures { IsTrue result ↔ HasSoundNumber d e.now }
{
    if e.hops == 0 {
        return false;
    }
    if e.dsn != 0 {
        return true;
    }
    e.dsk != Known::Kno && e.hops == 1 && e.next == d
}

// Whether all members are below n.
fn are_below(set: &NodeSet, n: usize) -> bool
    ensures { IsTrue result ↔ AreBelow n set.now }
{
    set.next_from(n).is_none()
}

// Whether an entry for d in the table of node `me` is one of its mesh: its next hop is another
// node, which has an entry too, and its precursors are in the mesh.
fn is_entry_in_mesh(table: &RowTable, me: usize, d: usize, e: &Entry) -> bool
    requires { d < table.now.nodes }
    ensures { IsTrue result ↔ IsEntryInMesh table.now.nodes me table.now.entries d e.now }
{
    let nodes = table.nodes();
    if e.next >= nodes || e.next == me {
        return false;
    }
    table.get(e.next).is_some() && are_below(&e.pre, nodes)
}

/// Whether the table is one that node `me` may have. It goes through the entries once.
pub(crate) fn is_sound_table(table: &RowTable, me: usize) -> bool
    ensures { IsTrue result ↔ IsSoundTable table.now.nodes me table.now.entries }
{
    let nodes = table.nodes();
    for d in 0..nodes {
        if let Some(e) = table.get(d) {
            if !has_sound_number(d, &e) || !is_entry_in_mesh(table, me, d, &e) {
                return false;
            }
        }
    }
    true
}

// Whether the item may wait at node `me` of a mesh with this many nodes.
fn is_item_at(item: &Item, nodes: usize, me: usize) -> bool
    requires { IsItem item.now }
    ensures { IsTrue result ↔ IsItemAt nodes me item.now }
{
    match item {
        Item::New { dest, .. } => *dest < nodes,
        Item::Heard { from, .. } => *from < nodes && *from != me,
    }
}

/// Whether all items of the inbox may wait at node `me` of a mesh with this many nodes.
pub(crate) fn are_items_at(inbox: &Inbox, nodes: usize, me: usize) -> bool
    ensures { IsTrue result ↔ AllByRecursion (IsItemAt nodes me) inbox.now.items }
{
    for k in 0..inbox.len() {
        if !is_item_at(inbox.at(k), nodes, me) {
            return false;
        }
    }
    true
}
