//! Checkpoints written out byte for byte. The other reasons to refuse a checkpoint are tried in
//! checks/cases/mesh_state.
use mesh_checkpoint::validate;
use mesh_load::{StateError, load};
use mesh_run::Point;
use mesh_world::{Part, World};
use std::alloc::Global;

/// The checkpoint of an empty input.
const EMPTY: [u8; 68] = [
    0x41, 0x57, 0x4e, 0x31, 0, 0, 0, 60, 0, 0, 0, 0, 0, 0, 0, 0, 0, 0, 0, 0, 0, 0, 0, 0, 0, 0, 0,
    0, 0, 0, 0, 0, 0, 0, 0, 0, 0, 0, 0, 0, 0, 0, 0, 0, 0, 0, 0, 0, 0, 0, 0, 0, 0, 0, 0, 0, 0, 0, 0,
    0, 0, 0, 0, 0, 0, 0, 0, 0,
];

/// Two linked nodes, 10.0.0.1 and 10.0.0.2. Node 1 has a route to node 0 with number 5, and node 0
/// has one to itself with that number, by node 1.
const TWO: [u8; 182] = [
    0x41, 0x57, 0x4e, 0x31, 0, 0, 0, 174, //
    0, //
    0, 0, 0, 0, 0, 0, 0, 0, 0, 0, 0, 0, 0, 0, 0, 0, 0, 0, 0, 0, 0, 0, 0, 0, 0, 0, 0, 0, //
    0, 0, 0, 0, 0, 0, 0, 0, 0, 0, 0, 0, 0, 0, 0, 0, 0, 0, 0, 0, 0, 0, 0, 0, 0, 0, 0, 0, //
    0, 2, 10, 0, 0, 1, 0, 0, 0, 1, 10, 0, 0, 2, 0, 0, 0, 9, //
    1, 0, 0, 0, 0, 0, 0, 0, 3, //
    0, 0, 0, 1, 0, 2, //
    0, 0, 0, 0, 0, 5, 1, 1, 2, 0, 1, 0, 0, //
    0, 1, 0, 0, 0, 9, 1, 1, 1, 0, 1, 0, 0, //
    0, 0, 0, 0, 0, 0, 0, 0, 0, 0, //
    0, 0, 0, 9, 0, 1, //
    0, 0, 0, 0, 0, 5, 1, 1, 1, 0, 0, 0, 0, //
    0, 0, 0, 0, 0, 0, 0, 0, 0, 0, //
    0, 1, 0, 0, 0, 1, 1, //
    0, 0, 0, 0, 0, 0, 0, 1, //
    0, 0, 0, 0,
];

/// Three nodes, of which node 0 has links to the others. It has asked for a route to node 1: the
/// copy for node 1 was lost, and node 2 has taken its own and asked on. One copy is in flight.
const THREE: [u8; 245] = [
    65, 87, 78, 49, 0, 0, 0, 237, 0, 0, 0, 0, 0, 0, 0, 0, 12, 0, 0, 0, 0, 0, 0, 0, 9, 0, 0, 0, 0,
    0, 0, 0, 1, 0, 0, 0, 0, 0, 0, 0, 1, 0, 0, 0, 0, 0, 0, 0, 0, 0, 0, 0, 0, 0, 0, 0, 0, 0, 0, 0, 0,
    0, 0, 0, 0, 0, 3, 10, 0, 0, 1, 0, 0, 0, 1, 10, 0, 0, 2, 0, 0, 0, 1, 10, 0, 0, 3, 0, 0, 0, 1, 1,
    0, 0, 0, 0, 0, 0, 0, 9, 0, 0, 0, 2, 0, 0, 0, 0, 0, 1, 0, 0, 0, 0, 0, 1, 0, 1, 0, 1, 0, 0, 0, 0,
    1, 0, 1, 120, 0, 0, 0, 0, 0, 0, 0, 1, 0, 0, 0, 0, 0, 0, 0, 0, 0, 0, 0, 0, 0, 0, 0, 1, 0, 1, 0,
    0, 0, 0, 0, 2, 1, 1, 1, 0, 0, 0, 0, 0, 0, 0, 1, 0, 0, 0, 0, 0, 1, 0, 0, 0, 0, 0, 0, 0, 2, 0, 0,
    0, 1, 1, 0, 0, 0, 2, 1, 0, 0, 0, 0, 0, 0, 0, 4, 0, 0, 0, 1, 0, 0, 0, 0, 0, 0, 0, 3, 0, 2, 0, 0,
    0, 24, 1, 8, 0, 1, 0, 0, 0, 1, 10, 0, 0, 2, 0, 0, 0, 0, 10, 0, 0, 1, 0, 0, 0, 2,
];

#[test]
fn validates_an_empty_checkpoint(rt: HostRuntime) {
    assert!(rt; matches!(validate(&EMPTY), Ok(0)));
}

// How many nodes a state has, and how many steps its world has done.
fn sizes_of(at: &Point<World>) -> (usize, Option<u64>) {
    let steps = match at.world() {
        Some(world) => Some(world.steps()),
        None => None,
    };
    (at.mesh().len(), steps)
}

// The sizes of the state whose checkpoint this is.
fn loaded(alloc: Global, bytes: &[u8]) -> Result<(usize, Option<u64>), StateError> {
    match load(alloc, bytes) {
        Ok(at) => Ok(sizes_of(&at)),
        Err(why) => Err(why),
    }
}

fn loads_the_two(alloc: Global) -> bool {
    // The number of the route of node 0 to itself.
    let mut unbacked = TWO;
    unbacked[103] = 6;
    matches!(loaded(alloc, &TWO), Ok((2, Some(3))))
        && matches!(
            loaded(alloc, &unbacked),
            Err(StateError::Unsound(Part::Edge { node: 0, dest: 0 }))
        )
}

#[test]
fn a_world_is_loaded(rt: HostRuntime) {
    assert!(rt; loads_the_two(rt.alloc()));
}

#[test]
fn a_world_in_which_a_request_flies_is_loaded(rt: HostRuntime) {
    assert!(rt; matches!(loaded(rt.alloc(), &THREE), Ok((3, Some(9)))));
}
