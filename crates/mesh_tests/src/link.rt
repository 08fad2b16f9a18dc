//! Datagrams over two sockets of this machine, and over links in memory.
ghost use Rattle.std.specs.Prelude.{◌≡◌, is_some, true};
ghost use Rattle.mesh_link.specs.Memory.{sure_port};

use mesh_base::Bytes;
use mesh_io::Failed;
use mesh_link::{Link, MemLink, SureLink, UdpLink};
use std::test::Fail;
use std::thread;
use std::time::Duration;

// Whether the next receipt is this one, and leaves a buffer that begins with these bytes.
fn receives<L: Link>(
    link: &mut L,
    buf: &mut [u8],
    answer: Result<Option<(u16, usize)>, Failed>,
    front: &[u8],
) -> bool
    requires { is_some (L.port link.old) ≡ true }
    ensures { L.port link.new ≡ L.port link.old }
{
    link.receive(buf) == answer && buf.starts_with(front)
}

fn sends_three<L: Link>(link: &mut L) -> bool
    requires { is_some (L.port link.old) ≡ true }
{
    link.send(47111, b"abc").is_ok()
        && link.send(47111, b"too long").is_ok()
        && link.send(47111, b"").is_ok()
}

fn receives_three<L: Link>(link: &mut L) -> bool
    requires { is_some (L.port link.old) ≡ true }
{
    let mut buf = [0u8; 4];
    receives(link, &mut buf, Ok(Some((47112, 3))), b"abc")
        && receives(link, &mut buf, Ok(Some((47112, 4))), b"too ")
        && receives(link, &mut buf, Ok(Some((47112, 0))), b"")
        && receives(link, &mut buf, Ok(None), b"")
}

#[test]
fn a_datagram_comes(rt: HostRuntime) {
    let mut near = UdpLink::new(&rt);
    let mut far = UdpLink::new(&rt);
    assert!(rt; near.open(47111).is_ok());
    assert!(rt; far.open(47112).is_ok());
    assert!(rt; receives(&mut near, &mut [0u8; 4], Ok(None), b""));
    assert!(rt; sends_three(&mut far));
    thread::sleep(&rt, Duration::from_millis(50));
    assert!(rt; receives_three(&mut near));
}

// Whether the third call fails, as it is planned.
fn receives_but_once(link: &mut MemLink) -> bool
    requires { is_some link.old.port ≡ true }
    ensures { link.new.port ≡ link.old.port }
{
    let mut buf = [0u8; 2];
    receives(link, &mut buf, Ok(Some((7, 2))), b"ab")
        && receives(link, &mut buf, Err(Failed), b"")
        && receives(link, &mut buf, Ok(None), b"")
}

// Whether there is room for one datagram, and it is kept.
fn sends_but_once(link: &mut MemLink) -> bool
    requires { is_some link.old.port ≡ true }
{
    link.send(8, b"hi").is_ok()
        && link.send(8, b"hi").is_err()
        && link.sent_count() == 1
        && matches!(link.sent_at(0), (8, b"hi"))
}

#[test]
fn calls_fail_by_plan(rt: HostRuntime) -> Result<(), Fail> {
    let mut link = MemLink::new(rt.alloc(), 1, &[3])?;
    link.arrive(rt.alloc(), 7, b"abc")?;
    assert!(rt; link.open(5).is_ok());
    assert!(rt; receives_but_once(&mut link) && sends_but_once(&mut link));
    Ok(())
}

// Whether the link gives its datagram, and then takes one that is sent.
fn gives_one(link: &mut SureLink) -> bool
    requires { is_some (sure_port link.old) ≡ true }
{
    let mut buf = [0u8; 4];
    receives(link, &mut buf, Ok(Some((7, 3))), b"abc\0")
        && receives(link, &mut buf, Ok(None), b"")
        && link.send(8, b"hi").is_ok()
}

#[test]
fn one_datagram_is_given(rt: HostRuntime) -> Result<(), Fail> {
    let mut link = SureLink::new(7, Bytes::copy_of(rt.alloc(), b"abc")?);
    assert!(rt; link.open(5).is_ok());
    assert!(rt; gives_one(&mut link));
    Ok(())
}
