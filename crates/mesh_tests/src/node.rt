//! What a turn of one of two nodes refuses. The way of a datum through a node is in
//! checks/cases/mesh_cli, as a_datum_goes_to_a_neighbour. Each call of a node is in a function that
//! borrows the node: in one that owns it, the proof would go through all that the call may answer
//! at each way out.
ghost use Rattle.std.specs.Prelude.{◌≡◌, length};

use aodv_node::{Node, TurnError};
use aodv_wire::WireError;
use mesh_base::{Addr, Bytes, Full, Mesh, NoMemory, NodeSet, Packet};
use std::alloc::Global;
use std::test::Fail;

fn two_nodes() -> Mesh {
    let mut mesh = Mesh::new();
    let _ = mesh.add(Addr(0x0a000001), 1);
    let _ = mesh.add(Addr(0x0a000002), 1);
    mesh
}

// A packet comes from node 1.
fn hear(node: &mut Node, alloc: Global, bytes: &[u8]) -> Result<(), NoMemory>
    requires size { node.old.size ≡ 2 }
    requires me { node.old.core.ip ≡ 0 }
    ensures { node.new.size ≡ 2 }
{
    node.make_room()?;
    node.hear(1, Bytes::copy_of(alloc, bytes)?);
    Ok(())
}

// Why a turn is refused.
fn fault_of(node: &mut Node, mesh: &Mesh) -> Option<TurnError>
    requires { length mesh.now ≡ node.old.size }
{
    let mut out = Packet::new();
    match node.turn(mesh, &NodeSet::new(), &mut out) {
        Ok(_) => None,
        Err(why) => Some(why),
    }
}

// Whether a node refuses a packet of node 1 for this reason, and then has `left` packets left.
fn refuses(
    node: &mut Node,
    alloc: Global,
    mesh: &Mesh,
    bytes: &[u8],
    why: TurnError,
    left: usize,
) -> Result<bool, NoMemory>
    requires size { node.old.size ≡ 2 }
    requires mesh { length mesh.now ≡ 2 }
    requires me { node.old.core.ip ≡ 0 }
{
    hear(node, alloc, bytes)?;
    Ok(fault_of(node, mesh) == Some(why) && node.inbox().len() == left)
}

fn is_refused(
    alloc: Global,
    mesh: &Mesh,
    bytes: &[u8],
    why: TurnError,
    left: usize,
) -> Result<bool, NoMemory>
    requires { length mesh.now ≡ 2 }
{
    let mut node = Node::new(alloc, mesh, 0)?;
    refuses(&mut node, alloc, mesh, bytes, why, left)
}

#[test]
fn a_turn_is_refused(rt: HostRuntime) -> Result<(), Fail> {
    let mesh = two_nodes();
    assert!(rt; mesh.len() == 2);
    let request: [u8; 24] = [
        1, 8, 0, 0, 0, 0, 0, 1, 10, 0, 0, 9, 0, 0, 0, 0, 10, 0, 0, 2, 0, 0, 0, 2,
    ];
    let reply: [u8; 20] = [
        2, 0, 0, 255, 10, 0, 0, 2, 0, 0, 0, 1, 10, 0, 0, 1, 255, 255, 255, 255,
    ];
    let rows: [(&[u8], TurnError, usize); 3] = [
        (
            &[],
            TurnError::Refused {
                from: 1,
                why: WireError::Short,
            },
            0,
        ),
        (
            &request,
            TurnError::Stranger {
                from: 1,
                who: Addr(0x0a000009),
            },
            0,
        ),
        (&reply, TurnError::Full(Full::Hops), 1),
    ];
    for (bytes, why, left) in rows {
        assert!(rt; is_refused(rt.alloc(), &mesh, bytes, why, left)?, "{why}");
    }
    Ok(())
}
