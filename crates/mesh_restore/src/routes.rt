//! The routing table of a node.
ghost use Rattle.std.specs.Prelude.{◌≡◌, ◌<◌, ◌≤◌, IfSome, IfOk};
ghost use Rattle.mesh_base.specs.declared.limits.TheConstants.{MOST_NODES};
ghost use Rattle.mesh_base.specs.Members.{member_list};
ghost use Rattle.mesh_checkpoint.specs.Formats.{get_rising};
ghost use Rattle.mesh_checkpoint.specs.Checkpoint as model;
ghost use Rattle.mesh_checkpoint.specs.Reading.{Gives};
ghost use Rattle.mesh_restore.specs.Reading.{Reads};
ghost use Rattle.mesh_checkpoint.specs.Points.{route_of, routes_in};
ghost use Rattle.aodv_model.specs.Soundness.{AreBelow};
ghost use Rattle.mesh_restore.specs.Nodes.{ArePrecursorsBelow};

use crate::error::ReadError;
use aodv_model::{Entry, Flag, Known};
use aodv_table::{RowTable, Table};
use mesh_base::NodeSet;
use mesh_checkpoint::END16;
use mesh_checkpoint::numbers::number16;
use mesh_checkpoint::reading::{read_route_head, rise};
use std::alloc::Global;

// `count` nodes, by rising index, and the bytes after them.
fn precursors(count: u16, bytes: &[u8], nodes: u32) -> Option<(NodeSet, &[u8])>
    requires { nodes ≤ MOST_NODES }
    ensures value { Gives (λ x. (member_list x.0, x.1.now)) result
        (get_rising (λ i. i) (model.index nodes).get count 0 bytes.now) }
    ensures below { IfSome result (λ x. AreBelow nodes x.0) }
{
    let mut found = NodeSet::new();
    let mut rest = bytes;
    let mut low = 0;
    for _ in 0..count {
        let (index, behind) = number16(rest, 0, nodes)?;
        low = rise(low, u64::from(index))?;
        found.add(usize::from(index));
        rest = behind;
    }
    Some((found, rest))
}

// The destination of an entry, the entry, and the bytes after it.
fn route(bytes: &[u8], nodes: u32) -> Option<(usize, Entry, &[u8])>
    requires { nodes ≤ MOST_NODES }
    ensures value { Gives (λ x. (route_of (x.0, x.1), x.2.now)) result
        ((model.route nodes).get bytes.now) }
    ensures below { IfSome result (λ x. x.0 < nodes) }
    ensures precursors { IfSome result (λ x. AreBelow nodes x.1.pre) }
{
    let (head, rest) = read_route_head(bytes, nodes)?;
    let Some((pre, rest)) = precursors(head.precursors, rest, nodes) else {
        return None;
    };
    let entry = Entry {
        dsn: head.number,
        dsk: if head.known { Known::Kno } else { Known::Unk },
        flag: if head.valid { Flag::Val } else { Flag::Inv },
        hops: head.hops,
        next: head.next,
        pre,
    };
    Some((head.dest, entry, rest))
}

// `count` entries, by rising destination, and the bytes after them.
fn rows(alloc: Global, count: u16, bytes: &[u8], nodes: u32) -> Result<(RowTable, &[u8]), ReadError>
    requires { nodes ≤ MOST_NODES }
    ensures value { Reads (λ x. (routes_in x.0.entries, x.1.now)) result
        (get_rising (λ r. r.dest) (model.route nodes).get count 0 bytes.now) }
    ensures nodes { IfOk result (λ x. x.0.nodes ≡ nodes) }
    ensures below { IfOk result (λ x. ArePrecursorsBelow nodes x.0.entries) }
{
    let mut table = RowTable::new(alloc, nodes as usize)?;
    let mut rest = bytes;
    let mut low = 0;
    for _ in 0..count {
        let Some((dest, entry, behind)) = route(rest, nodes) else {
            return Err(ReadError::Spelling);
        };
        if dest < low {
            return Err(ReadError::Spelling);
        }
        low = dest + 1;
        table.make_room(dest)?;
        table.put(dest, Some(entry));
        rest = behind;
    }
    Ok((table, rest))
}

/// The table at the start of the bytes, in a mesh of this many nodes, and the bytes after it.
pub(crate) fn table(alloc: Global, bytes: &[u8], nodes: u32) -> Result<(RowTable, &[u8]), ReadError>
    requires { nodes ≤ MOST_NODES }
    ensures value { Reads (λ x. (routes_in x.0.entries, x.1.now)) result
        ((model.routes nodes).get bytes.now) }
    ensures nodes { IfOk result (λ x. x.0.nodes ≡ nodes) }
    ensures below { IfOk result (λ x. ArePrecursorsBelow nodes x.0.entries) }
{
    let Some((count, rest)) = number16(bytes, 0, END16) else {
        return Err(ReadError::Spelling);
    };
    rows(alloc, count, rest, nodes)
}
