//! The world of a checkpoint.
ghost use Rattle.std.specs.Prelude.{◌≤◌, length, IfSome};
ghost use Rattle.mesh_checkpoint.specs.Formats.{maybe};
ghost use Rattle.mesh_checkpoint.specs.Checkpoint as model;
ghost use Rattle.mesh_load.specs.Loading.{IsUnsoundWorld};
ghost use Rattle.mesh_load.specs.Parts.{Makes, IsFitting, IsWorldFrom, IsMaybeWorldFrom, IsUnsoundIfWorld};

use crate::error::StateError;
use crate::nodes::read_nodes;
use mesh_base::{Mesh, Variant};
use mesh_checkpoint::MOST_STEPS;
use mesh_checkpoint::numbers::{byte, number64};
use mesh_restore::read_radio;
use mesh_world::{Part, World};
use std::alloc::Global;

// The world of the mesh, all of whose nodes are of this variant, at the start of the bytes; or the
// first part that isn't as in a run.
fn read_world(
    alloc: Global,
    mesh: &Mesh,
    variant: Variant,
    bytes: &[u8],
) -> Result<World, StateError>
    requires some { 1 ≤ length mesh.now }
    requires fitting { let size = length mesh.now in
        IfSome ((model.world size).get bytes.now) (λ x. IsFitting size x.0) }
    ensures { let read = (model.world (length mesh.now)).get bytes.now in
        Makes (IsWorldFrom mesh.now variant) (IsUnsoundWorld mesh.now variant) read result }
{
    let Some((steps, rest)) = number64(bytes, 0, MOST_STEPS + 1) else {
        return Err(StateError::Spelling);
    };
    let (nodes, in_place, rest) = read_nodes(alloc, mesh, variant, rest)?;
    let (radio, apart, _) = read_radio(alloc, rest, mesh.len() as u32)?;
    if !in_place || !apart {
        return Err(StateError::Unsound(Part::Item));
    }
    // Its contract says that no copy in flight is from a node to itself.
    let _copies = radio.count();
    match World::from_parts(mesh, variant, nodes, radio, steps) {
        Ok(world) => Ok(world),
        Err(part) => Err(StateError::Unsound(part)),
    }
}

/// As `read_world`, if there is a world, after the byte that says whether there is.
pub(crate) fn read_maybe_world(
    alloc: Global,
    mesh: &Mesh,
    variant: Variant,
    bytes: &[u8],
) -> Result<Option<World>, StateError>
    requires { let size = length mesh.now in
        IfSome ((maybe (model.has_nodes mesh.now) (model.world size)).get bytes.now)
        (λ x. IfSome x.0 (IsFitting size)) }
    ensures { let size = length mesh.now in
        let read = (maybe (model.has_nodes mesh.now) (model.world size)).get bytes.now in
        Makes (IsMaybeWorldFrom mesh.now variant) (IsUnsoundIfWorld mesh.now variant) read result }
{
    let Some((there, rest)) = byte(bytes, 0, 2) else {
        return Err(StateError::Spelling);
    };
    if there == 0 {
        return Ok(None);
    }
    if mesh.is_empty() {
        return Err(StateError::Spelling);
    }
    Ok(Some(read_world(alloc, mesh, variant, rest)?))
}
