//! Parts of a checkpoint, byte by byte.
ghost use Rattle.std.specs.Prelude.{◌<◌, length};

use aodv_node::{Node, Unfit};
use mesh_base::{Addr, Mesh, Variant};
use mesh_restore::{ReadError, read_mesh, read_node, read_radio};
use std::alloc::Global;

/// Two nodes, 10.0.0.1 and 10.0.0.2.
const MESH: [u8; 18] = [0, 2, 10, 0, 0, 1, 0, 0, 0, 1, 10, 0, 0, 2, 0, 0, 0, 9];

/// Node 0: its number is 7; it has a route to node 1, whose precursor is node 1; it has seen
/// request 3 of node 0; the datum `hi` waits for node 1 and needs no request; a packet of one byte
/// from node 1 waits. Five bytes follow the node.
const NODE: [u8; 59] = [
    0, 0, 0, 7, //
    0, 1, 0, 1, 0, 0, 0, 5, 1, 1, 1, 0, 1, 0, 1, 0, 1, //
    0, 0, 0, 1, 0, 0, 0, 0, 0, 3, //
    0, 1, 0, 1, 0, 0, 0, 0, 1, 0, 2, 104, 105, //
    0, 0, 0, 1, 1, 0, 1, 0, 1, 255, //
    77, 77, 77, 77, 77,
];

/// A link that has stood, the next id 5, and copy 3, of one byte. One byte follows them.
const AIR: [u8; 35] = [
    0, 1, 0, 0, 0, 1, 0, //
    0, 0, 0, 0, 0, 0, 0, 5, //
    0, 0, 0, 1, 0, 0, 0, 0, 0, 0, 0, 3, 0, 1, 0, 0, 0, 1, 16, //
    77,
];

fn reads_the_mesh() -> bool {
    match read_mesh(&MESH) {
        Some((mesh, rest)) => rest.is_empty() && mesh.len() == 2,
        None => false,
    }
}

#[test]
fn a_mesh_is_read(rt: HostRuntime) {
    assert!(rt; reads_the_mesh());
}

// The sequence number of a node that was made from its parts.
fn sn_of(made: &Result<Node, Unfit>) -> Result<u32, Unfit> {
    match made {
        Ok(node) => Ok(node.sn()),
        Err(why) => Err(*why),
    }
}

// The sequence number of node 0 in these bytes, and how many bytes follow the node.
fn node_read(
    alloc: Global,
    mesh: &Mesh,
    bytes: &[u8],
) -> Result<(Result<u32, Unfit>, usize), ReadError>
    requires { 0 < length mesh.now }
{
    match read_node(alloc, mesh, 0, Variant::Base, bytes) {
        Ok((made, rest)) => Ok((sn_of(&made), rest.len())),
        Err(why) => Err(why),
    }
}

fn reads_the_node(alloc: Global, mesh: &Mesh) -> bool
    requires { 0 < length mesh.now }
{
    // The packet that waits would be from the node itself.
    let mut own = NODE;
    own[50] = 0;
    matches!(node_read(alloc, mesh, &NODE), Ok((Ok(7), 5)))
        && matches!(node_read(alloc, mesh, &own), Ok((Err(Unfit::Item), 5)))
}

#[test]
fn a_node_is_read(rt: HostRuntime) {
    let mut mesh = Mesh::new();
    let _ = mesh.add(Addr(0x0a000001), 1);
    let _ = mesh.add(Addr(0x0a000002), 9);
    assert!(rt; mesh.len() == 2);
    assert!(rt; reads_the_node(rt.alloc(), &mesh));
}

fn reads_the_air(alloc: Global) -> bool {
    match read_radio(alloc, &AIR, 2) {
        Ok((radio, apart, rest)) => {
            apart && rest.len() == 1 && radio.count() == 1 && radio.range(0).is_empty()
        }
        Err(_) => false,
    }
}

#[test]
fn links_and_copies_are_read(rt: HostRuntime) {
    assert!(rt; reads_the_air(rt.alloc()));
}
