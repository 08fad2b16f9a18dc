//! Lines below an event, of packets that no node of a mesh has made.
use mesh_base::{Addr, Bytes, Done, Event, Flying, Mesh, Packet};
use mesh_io::MemSink;
use mesh_report::put_done;
use std::test::Fail;

// More bytes than any text here has.
const WHOLE: usize = 256;

#[test]
fn an_idle_event_is_written(rt: HostRuntime) -> Result<(), Fail> {
    let mut mesh = Mesh::new();
    let _ = mesh.add(Addr(0x0a000001), 1);
    assert!(rt; mesh.len() == 1);
    let mut out = MemSink::new(rt.alloc(), WHOLE, WHOLE, &[])?;
    let packet = Packet::new();
    let put = put_done(
        &mesh,
        &Event::Turn { node: 0 },
        &Done::Idle,
        &packet,
        &mut out,
    );
    assert!(rt; put.is_ok());
    assert!(rt; out.held() == b"  idle\n".as_slice());
    Ok(())
}

#[test]
fn a_lost_packet_may_be_anybody_s(rt: HostRuntime) -> Result<(), Fail> {
    let mut mesh = Mesh::new();
    let _ = mesh.add(Addr(0x0a000001), 1);
    let _ = mesh.add(Addr(0x0a000002), 1);
    assert!(rt; mesh.len() == 2);
    let mut out = MemSink::new(rt.alloc(), WHOLE, WHOLE, &[])?;
    let packet = Packet::new();
    let lost = Done::Lost {
        flying: Flying {
            id: 1,
            from: 0,
            to: 1,
            bytes: Bytes::copy_of(rt.alloc(), &[255])?,
        },
    };
    let put = put_done(&mesh, &Event::Lose { id: 1 }, &lost, &packet, &mut out);
    assert!(rt; put.is_ok());
    assert!(rt; out.held() == b"  lost 10.0.0.1 10.0.0.2\n".as_slice());
    Ok(())
}
