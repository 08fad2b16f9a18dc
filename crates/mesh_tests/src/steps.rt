//! One event of a world, and the opening world of some nodes, as the tests of worlds make them.
ghost use Rattle.std.specs.Prelude.{IsTrue};
ghost use Rattle.mesh_model.specs.InMesh.{IsEvent};
ghost use Rattle.mesh_meaning.specs.Events.{event_of};

use mesh_base::{Addr, Done, Event, Mesh, Packet};
use mesh_world::Steps;
use std::alloc::Global;
use std::test::Fail;

/// Whether this is an event of a mesh of this many nodes.
pub(crate) fn is_event(e: &Event<'_>, nodes: usize) -> bool
    ensures { IsTrue result → IsEvent nodes (event_of e.now) }
{
    match *e {
        Event::Give { node, dest, body } => {
            node < nodes && dest < nodes && !body.is_empty() && body.len() <= 512
        }
        Event::Turn { node } => node < nodes,
        Event::Send { node, dest } => node < nodes && dest < nodes,
        Event::Ask { node, dest } => node < nodes && dest < nodes,
        Event::Link { a, b } => a < nodes && b < nodes && a != b,
        Event::Cut { a, b } => a < nodes && b < nodes && a != b,
        Event::Deliver { .. } => true,
        Event::Lose { .. } => true,
        Event::Double { .. } => true,
    }
}

/// Does one event, with ample memory and no counter near its greatest value.
pub(crate) fn advance<S: Steps>(world: &mut S, alloc: Global, e: &Event<'_>) -> Result<Done, Fail> {
    if !is_event(e, world.world().mesh().len()) || world.world().steps() >= 1000 {
        return Err(Fail::new("no event of this world"));
    }
    let mut out = Packet::new();
    match world.step(alloc, e, &mut out) {
        Ok(done) => Ok(done),
        Err(_) => Err(Fail::new("refused")),
    }
}

/// Does these events, one after another.
pub(crate) fn advance_all<S: Steps>(
    world: &mut S,
    alloc: Global,
    events: &[Event<'_>],
) -> Result<(), Fail> {
    for e in events {
        advance(world, alloc, e)?;
    }
    Ok(())
}

/// The opening world of the nodes 10.0.0.1, 10.0.0.2 and so on.
pub(crate) fn opening<S: Steps>(alloc: Global, nodes: u32) -> Result<S, Fail> {
    let mut mesh = Mesh::new();
    for i in 0..nodes.min(200) {
        let _ = mesh.add(Addr(0x0a000001 + i), 1);
    }
    if mesh.is_empty() {
        return Err(Fail::new("no node"));
    }
    Ok(S::new(alloc, &mesh)?)
}
