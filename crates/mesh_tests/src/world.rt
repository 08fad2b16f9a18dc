//! A world of two nodes: a route is found, and a datum arrives. The world's owner only makes it and
//! lends it, since it is dropped at each way out of the owner.
use crate::steps::{advance, advance_all, opening};
use mesh_base::{Done, Event};
use mesh_world::{Steps, World};
use std::alloc::Global;
use std::test::Fail;

/// Node 0 has a datum for its neighbour.
const BEGUN: [Event<'static>; 3] = [
    Event::Link { a: 0, b: 1 },
    Event::Give {
        node: 0,
        dest: 1,
        body: b"hi",
    },
    Event::Turn { node: 0 },
];

/// Node 0 asks for a route to its neighbour, which answers.
const FOUND: [Event<'static>; 5] = [
    Event::Ask { node: 0, dest: 1 },
    Event::Deliver { id: 1 },
    Event::Turn { node: 1 },
    Event::Deliver { id: 2 },
    Event::Turn { node: 0 },
];

// The least ask and the least send that are enabled.
fn least<S: Steps>(world: &S) -> (Option<(usize, usize)>, Option<(usize, usize)>) {
    let world = world.world();
    (world.first_ask(), world.first_send())
}

// Whether the copy of the datum that is sent is doubled, as copy 4 to node 1.
fn doubles<S: Steps>(world: &mut S, alloc: Global) -> Result<bool, Fail> {
    advance(world, alloc, &Event::Send { node: 0, dest: 1 })?;
    let doubled = advance(world, alloc, &Event::Double { id: 3 })?;
    Ok(matches!(
        &doubled,
        Done::Doubled {
            id: 4,
            to: 1,
            parcel: true
        }
    ))
}

// Whether the doubled copy delivers the datum.
fn delivers<S: Steps>(world: &mut S, alloc: Global) -> Result<bool, Fail> {
    advance(world, alloc, &Event::Deliver { id: 4 })?;
    let done = advance(world, alloc, &Event::Turn { node: 1 })?;
    Ok(matches!(&done, Done::Taken { effect, .. } if effect.deliver))
}

// Whether a request is enabled as soon as a datum waits, and a send as soon as the route is found.
fn finds<S: Steps>(world: &mut S, alloc: Global) -> Result<bool, Fail> {
    advance_all(world, alloc, &BEGUN)?;
    let asks = matches!(least(world), (Some((0, 1)), None));
    advance_all(world, alloc, &FOUND)?;
    let sends = matches!(least(world), (None, Some((0, 1))));
    Ok(asks && sends)
}

fn sends_one<S: Steps>(world: &mut S, alloc: Global) -> Result<bool, Fail> {
    Ok(finds(world, alloc)? && doubles(world, alloc)? && delivers(world, alloc)?)
}

#[test]
fn a_datum_finds_its_way(rt: HostRuntime) -> Result<(), Fail> {
    let mut world: World = opening(rt.alloc(), 2)?;
    assert!(rt; sends_one(&mut world, rt.alloc())?);
    Ok(())
}
