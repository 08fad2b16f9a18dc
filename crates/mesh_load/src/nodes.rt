//! The nodes of a checkpoint.
ghost use Rattle.std.specs.Prelude.{◌<◌, length, MatchResult};
ghost use Rattle.mesh_checkpoint.specs.Formats.{get_times};
ghost use Rattle.mesh_checkpoint.specs.Checkpoint as model;
ghost use Rattle.mesh_load.specs.Nodes.{AreNodesRead};
ghost use Rattle.mesh_load.specs.Parts.{IsRefusalOf, IsUnsoundNode};

use crate::error::StateError;
use aodv_node::Unfit;
use mesh_base::{Mesh, Variant};
use mesh_restore::read_node;
use mesh_world::{Nodes, Part};
use std::alloc::Global;

/// The nodes of the mesh, of this variant, at the start of the bytes; whether each item is in place
/// (if one isn't, not all nodes are kept); and the bytes after them. The least node whose state
/// isn't in order is refused, and then no byte after it is looked at.
pub(crate) fn read_nodes<'b>(
    alloc: Global,
    mesh: &Mesh,
    variant: Variant,
    bytes: &'b [u8],
) -> Result<(Nodes, bool, &'b [u8]), StateError>
    ensures { let size = length mesh.now in
        let read = get_times (model.node size).get size bytes.now in
        MatchResult result (λ x. AreNodesRead variant size read x.0.nodes x.1 x.2.now)
        (λ e. IsRefusalOf (IsUnsoundNode variant size) read e) }
{
    let mut nodes = Nodes::new(alloc);
    let mut in_place = true;
    let mut rest = bytes;
    for me in 0..mesh.len() {
        let (read, behind) = read_node(alloc, mesh, me, variant, rest)?;
        match read {
            Ok(node) => {
                nodes.make_room()?;
                nodes.push(node);
            }
            Err(why) => match why {
                Unfit::Item => in_place = false,
                Unfit::Core => return Err(StateError::Unsound(Part::Node { node: me })),
            },
        }
        rest = behind;
    }
    Ok((nodes, in_place, rest))
}
