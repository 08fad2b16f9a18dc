//! Putting the body of a state into an encoder.
ghost use Rattle.std.specs.Prelude.{◌≡◌, length, IfSome};
ghost use Rattle.std.specs.List.{flat_map};
ghost use Rattle.mesh_base.specs.Meshes.{IsMesh};
ghost use Rattle.mesh_checkpoint.specs.Checkpoint as model;
ghost use Rattle.mesh_checkpoint.specs.Points.{head_of, body_of, node_of, world_after};
ghost use Rattle.mesh_save.specs.Bytes.{node_bytes, world_bytes};
ghost use Rattle.mesh_save.specs.Narrow.{AreNarrow, IsNarrowWorld};

use crate::encoder::Encoder;
use crate::fields::{put_truth, put16, put32, put64};
use crate::node::put_node;
use crate::radio_part::{put_copies, put_links};
use mesh_base::{Mesh, Variant};
use mesh_run::Point;
use mesh_world::World;

// A variant, as a byte.
fn variant_byte(variant: Variant) -> u8
    ensures { result ≡ model.variant_number variant }
{
    match variant {
        Variant::Base => 0,
        Variant::Number => 1,
        Variant::Reply => 2,
        Variant::Error => 3,
    }
}

// Puts the variant, the number of lines, and the sums.
fn put_head<P: Encoder>(encoder: &mut P, point: &Point<World>)
    ensures { P.wrote encoder.old (model.head.put (head_of point.now)) encoder.new }
{
    let sums = point.sums();
    encoder.put(&[variant_byte(point.variant())]);
    put64(encoder, point.lines());
    put64(encoder, sums.events);
    put64(encoder, sums.idle);
    put64(encoder, sums.given);
    put64(encoder, sums.delivered);
    put64(encoder, sums.lost);
    put64(encoder, sums.copied);
}

// Puts the nodes of the mesh, after their number.
fn put_mesh<P: Encoder>(encoder: &mut P, mesh: &Mesh)
    ensures { P.wrote encoder.old (model.mesh.put mesh.now) encoder.new }
{
    let nodes = mesh.len();
    put16(encoder, nodes as u64);
    for i in 0..nodes {
        put32(encoder, u64::from(mesh.at(i).0));
        put32(encoder, u64::from(mesh.first(i)));
    }
}

// Puts the nodes of a world.
fn put_nodes<P: Encoder>(encoder: &mut P, world: &World)
    ensures bytes { P.wrote encoder.old
        (flat_map (λ n. node_bytes (node_of world.now.mesh n)) world.now.world.nodes) encoder.new }
    ensures narrow { AreNarrow (length world.now.mesh) world.now.world }
{
    let nodes = world.mesh().len();
    for i in 0..nodes {
        put_node(encoder, world.node(i), nodes);
    }
}

// Puts a world.
fn put_world<P: Encoder>(encoder: &mut P, world: &World)
    ensures bytes { let body = world_after world.now.steps world.now.mesh world.now.world in
        P.wrote encoder.old (world_bytes body) encoder.new }
    ensures narrow { IsNarrowWorld world.now.mesh world.now.world }
{
    let nodes = world.mesh().len();
    put64(encoder, world.steps());
    put_nodes(encoder, world);
    let radio = world.radio();
    put_links(encoder, radio, nodes);
    put64(encoder, radio.next_id());
    put_copies(encoder, radio);
}

/// Puts the body of a state.
pub(crate) fn put_body<P: Encoder>(encoder: &mut P, point: &Point<World>)
    ensures bytes { P.wrote encoder.old (model.body.put (body_of point.now)) encoder.new }
    ensures mesh { IsMesh point.now.mesh }
    ensures narrow { IfSome point.now.world (IsNarrowWorld point.now.mesh) }
{
    put_head(encoder, point);
    put_mesh(encoder, point.mesh());
    match point.world() {
        Some(world) => {
            put_truth(encoder, true);
            put_world(encoder, world);
        }
        None => put_truth(encoder, false),
    }
}
