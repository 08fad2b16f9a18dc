//! A trail of three nodes in a row. Its owner only makes it and lends it, since it is dropped at
//! each way out of the owner.
use crate::steps::{advance_all, opening};
use mesh_base::Event;
use mesh_trail::Trail;
use mesh_world::Steps;
use std::alloc::Global;
use std::test::Fail;

/// Node 0 asks for a route to node 2, by node 1.
const ASKED: [Event<'static>; 7] = [
    Event::Link { a: 0, b: 1 },
    Event::Link { a: 1, b: 2 },
    Event::Give {
        node: 0,
        dest: 2,
        body: b"hi",
    },
    Event::Turn { node: 0 },
    Event::Ask { node: 0, dest: 2 },
    Event::Deliver { id: 1 },
    Event::Turn { node: 1 },
];

/// Node 2 answers the doubled request, and the reply goes back.
const ANSWERED: [Event<'static>; 7] = [
    Event::Double { id: 3 },
    Event::Deliver { id: 4 },
    Event::Turn { node: 2 },
    Event::Deliver { id: 5 },
    Event::Turn { node: 1 },
    Event::Deliver { id: 6 },
    Event::Turn { node: 0 },
];

// Whether this is the walk of the node's route; an empty walk stands for no route.
fn leads(trail: &Trail, node: usize, dest: usize, walk: &[usize]) -> bool {
    let count = trail.world().mesh().len();
    if node >= count || dest >= count {
        return false;
    }
    match trail.walk(node, dest) {
        Some(found) => found == walk,
        None => walk.is_empty(),
    }
}

fn is_asked_on(trail: &Trail) -> bool {
    leads(trail, 1, 0, &[0, 1]) && leads(trail, 0, 2, &[])
}

fn is_answered(trail: &Trail) -> bool {
    leads(trail, 2, 0, &[0, 1, 2]) && leads(trail, 0, 2, &[2, 1, 0]) && leads(trail, 0, 1, &[1, 0])
}

fn finds(trail: &mut Trail, alloc: Global) -> Result<bool, Fail> {
    advance_all(trail, alloc, &ASKED)?;
    let asked_on = is_asked_on(trail);
    advance_all(trail, alloc, &ANSWERED)?;
    Ok(asked_on && is_answered(trail))
}

#[test]
fn walks_lead_from_the_destination_to_the_node(rt: HostRuntime) -> Result<(), Fail> {
    let mut trail: Trail = opening(rt.alloc(), 3)?;
    assert!(rt; finds(&mut trail, rt.alloc())?);
    Ok(())
}
