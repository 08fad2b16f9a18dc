//! What waits for a node's turns.
ghost use Rattle.std.specs.Prelude.{◌≡◌, IfOk};
ghost use Rattle.aodv_inbox.specs.Queues.{IsItem};
ghost use Rattle.mesh_checkpoint.specs.Formats.{get_times};
ghost use Rattle.mesh_checkpoint.specs.Checkpoint as model;
ghost use Rattle.mesh_restore.specs.Reading.{Reads};
ghost use Rattle.mesh_checkpoint.specs.Views.{item_of, HasDatum};

use crate::error::ReadError;
use aodv_inbox::Inbox;
use mesh_base::{Bytes, Item, NoMemory};
use mesh_checkpoint::END32;
use mesh_checkpoint::numbers::number32;
use mesh_checkpoint::reading::{ItemView, read_item};
use std::alloc::Global;

// The item, with a copy of its bytes.
fn keep(alloc: Global, item: ItemView<'_>) -> Result<Item, NoMemory>
    requires { HasDatum item }
    ensures value { IfOk result (λ x. x ≡ item_of item.entry) }
    ensures item { IfOk result IsItem }
{
    match item {
        ItemView::New { dest, body } => {
            let body = Bytes::copy_of(alloc, body)?;
            Ok(Item::New { dest, body })
        }
        ItemView::Heard { from, bytes } => {
            let bytes = Bytes::copy_of(alloc, bytes)?;
            Ok(Item::Heard { from, bytes })
        }
    }
}

// An item.
fn item(alloc: Global, bytes: &[u8], nodes: u32) -> Result<(Item, &[u8]), ReadError>
    ensures value { Reads (λ x. (x.0, x.1.now)) result ((model.item nodes).get bytes.now) }
    ensures item { IfOk result (λ x. IsItem x.0) }
{
    let Some((seen, rest)) = read_item(bytes, nodes) else {
        return Err(ReadError::Spelling);
    };
    let item = keep(alloc, seen)?;
    Ok((item, rest))
}

// `count` items, and the bytes after them.
fn items(alloc: Global, count: u32, bytes: &[u8], nodes: u32) -> Result<(Inbox, &[u8]), ReadError>
    ensures { Reads (λ x. (x.0.items, x.1.now)) result
        (get_times (model.item nodes).get count bytes.now) }
{
    let mut inbox = Inbox::new(alloc)?;
    let mut rest = bytes;
    for _ in 0..count {
        let (item, behind) = item(alloc, rest, nodes)?;
        inbox.make_room()?;
        inbox.push(item);
        rest = behind;
    }
    Ok((inbox, rest))
}

/// The inbox at the start of the bytes, in a mesh of this many nodes, and the bytes after it.
pub(crate) fn inbox(alloc: Global, bytes: &[u8], nodes: u32) -> Result<(Inbox, &[u8]), ReadError>
    ensures { Reads (λ x. (x.0.items, x.1.now)) result ((model.inbox nodes).get bytes.now) }
{
    let Some((count, rest)) = number32(bytes, 0, END32) else {
        return Err(ReadError::Spelling);
    };
    items(alloc, count, rest, nodes)
}
