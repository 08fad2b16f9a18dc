//! The script of a router over a link in memory, whose calls fail one after another.
ghost use Rattle.std.specs.Prelude.{◌≡◌, None, OnOk};

use mesh_base::Bytes;
use mesh_io::{MemSink, MemSource};
use mesh_link::{Link, MemLink};
use mesh_router::{NodeStatus, run_script};
use std::alloc::Global;
use std::test::Fail;

const SCRIPT: &[u8] = b"self 10.0.0.1\npeer 10.0.0.2 47002\npoll 5\nturn 5\nshow\n";

const TEXT: &[u8] = b"self 10.0.0.1 sn 1
peer 10.0.0.2 47002
poll 5
  heard 10.0.0.2 24
  heard 10.0.0.2 24
  heard 10.0.0.2 23
  heard 10.0.0.2 20
  drop port 47003
turn 5
  took rreq 10.0.0.2
  sent one 10.0.0.2 020000000a000001000000010a000002ffffffff
  to 10.0.0.2 47002
  drop 10.0.0.2 outside profile
  drop 10.0.0.2 wrong length
  drop 10.0.0.2 repeated 10.0.0.2
  idle
show
  sn 1
  asked 10.0.0.2 1
  entry 10.0.0.2 2 kno val 1 10.0.0.2 -
  inbox 0
done heard 4 sent 1 dropped 4
";

// Four datagrams of the peer and one of a stranger have arrived.
#[tactic(auto, unfolding(mesh_link::specs::Memory::with_arrival))]
fn arrive(rt: &HostRuntime, link: &mut MemLink) -> Result<(), Fail>
    ensures port { OnOk result (link.new.port ≡ link.old.port) }
{
    let request = b"\x01\x0f\xff\0\0\0\0\x01\x0a\0\0\x01\0\0\0\0\x0a\0\0\x02\0\0\0\x02";
    let gratuitous = b"\x01\x18\0\0\0\0\0\x01\x0a\0\0\x01\0\0\0\0\x0a\0\0\x02\0\0\0\x02";
    let twice = b"\x03\0\0\x02\x0a\0\0\x02\0\0\0\x02\x0a\0\0\x02\0\0\0\x03";
    link.arrive(rt.alloc(), 47002, request)?;
    link.arrive(rt.alloc(), 47002, gratuitous)?;
    link.arrive(rt.alloc(), 47002, &request[..23])?;
    link.arrive(rt.alloc(), 47002, twice)?;
    link.arrive(rt.alloc(), 47003, b"\0")?;
    Ok(())
}

// The link opens, and the script runs over it.
fn run_over(
    alloc: Global,
    input: &mut MemSource,
    out: &mut MemSink,
    link: &mut MemLink,
) -> Option<NodeStatus>
    requires { link.old.port ≡ None }
{
    match link.open(47001) {
        Ok(()) => Some(run_script(alloc, input, out, link)),
        Err(_) => None,
    }
}

// Whether a run of the script over a link that fails at that call answers this, and writes the text
// or a prefix of it. The link's opening is its first call.
#[tactic(auto, unfolding(mesh_link::specs::Memory::new_link))]
fn is_answered(rt: &HostRuntime, fails: &[u64], status: NodeStatus) -> Result<bool, Fail> {
    let mut link = MemLink::new(rt.alloc(), 4, fails)?;
    arrive(rt, &mut link)?;
    let script = Bytes::copy_of(rt.alloc(), SCRIPT)?;
    let mut input = MemSource::new(rt.alloc(), script, 7, &[])?;
    let mut out = MemSink::new(rt.alloc(), 4000, 100, &[])?;
    let answer = run_over(rt.alloc(), &mut input, &mut out, &mut link);
    let whole = status != NodeStatus::Done || out.held() == TEXT;
    Ok(answer == Some(status) && whole && TEXT.starts_with(out.held()))
}

#[test]
fn hostile_datagrams_are_dropped(rt: HostRuntime) -> Result<(), Fail> {
    assert!(rt; is_answered(&rt, &[], NodeStatus::Done)?);
    Ok(())
}

// The link is opened, received from five times, and sent over once.
#[test]
fn each_call_of_the_link_can_fail(rt: HostRuntime) -> Result<(), Fail> {
    for call in 2..8 {
        assert!(rt; is_answered(&rt, &[call], NodeStatus::LinkFault)?);
    }
    assert!(rt; is_answered(&rt, &[8], NodeStatus::Done)?);
    Ok(())
}
