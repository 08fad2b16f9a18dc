//! A node.
ghost use Rattle.std.specs.Prelude.{◌<◌, length, MatchResult};
ghost use Rattle.mesh_checkpoint.specs.Checkpoint as model;
ghost use Rattle.mesh_restore.specs.Reading.{Refuses};
ghost use Rattle.mesh_restore.specs.Nodes.{IsNodeRead};

use crate::error::ReadError;
use crate::inbox::inbox;
use crate::requests::requests;
use crate::routes::table;
use crate::store::store;
use aodv_node::{Node, Unfit};
use mesh_base::{Mesh, Variant};
use mesh_checkpoint::END32;
use mesh_checkpoint::numbers::number32;
use std::alloc::Global;

/// Node `me` of the mesh, of this variant, at the start of the bytes, and the bytes after it. If
/// its parts don't make a node, the answer is which of them isn't in order.
pub fn read_node<'b>(
    alloc: Global,
    mesh: &Mesh,
    me: usize,
    variant: Variant,
    bytes: &'b [u8],
) -> Result<(Result<Node, Unfit>, &'b [u8]), ReadError>
    requires { me < length mesh.now }
    ensures { let read = (model.node (length mesh.now)).get bytes.now in
        MatchResult result (λ x. IsNodeRead variant me (length mesh.now) read x.0 x.1.now)
        (λ e. Refuses e read) }
{
    let nodes = mesh.len() as u32;
    let Some((sn, rest)) = number32(bytes, 1, END32) else {
        return Err(ReadError::Spelling);
    };
    let (table, rest) = table(alloc, rest, nodes)?;
    let (asked, rest) = requests(alloc, rest, nodes)?;
    let (waiting, rest) = store(alloc, rest, nodes)?;
    let (inbox, rest) = inbox(alloc, rest, nodes)?;
    let node = Node::from_parts(mesh, me, variant, sn, table, asked, waiting, inbox);
    Ok((node, rest))
}
