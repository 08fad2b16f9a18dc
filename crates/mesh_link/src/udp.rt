//! The adapter over a socket.
ghost use Rattle.std.specs.Prelude.{◌≡◌, ◌≤◌, ◌∷◌, [], None};
ghost use Rattle.std.specs.Net.Addr.{ipv4_octets};
ghost use Rattle.std.specs.Net.Socket.{v4_ip, v4_port};
ghost use Rattle.std.specs.declared.net.socket_addr.SocketAddrV4.{SocketAddrV4};
ghost use Rattle.std.specs.declared.net.socket_addr.SocketAddr.TheVariants.{V4};
ghost use Rattle.mesh_io.specs.Cause.{Rose};

use crate::link::Link;
use mesh_io::Failed;
use std::io;
use std::net::{Ipv4Addr, Net, SocketAddr, SocketAddrV4, UdpSocket};

/// A socket that is bound to a port, and whose calls don't wait.
#[derive(Drop)]
struct Opened {
    port: u16,
    socket: UdpSocket,
}

/// A socket on 127.0.0.1. Its datagrams aren't known to contracts.
#[derive(Drop)]
pub struct UdpLink<'a, R> {
    rt: &'a R,
    opened: Option<Opened>,
    faults: u64,
}

// A port of this machine, at the address 127.0.0.1, which only its own processes reach.
fn local(port: u16) -> SocketAddr
    ensures address { (at : SocketAddrV4) × (result ≡ V4 at)
        × (ipv4_octets (v4_ip at) ≡ 127 ∷ 0 ∷ 0 ∷ 1 ∷ []) × (v4_port at ≡ port) }
{
    SocketAddr::V4(SocketAddrV4::new(Ipv4Addr::LOCALHOST, port))
}

// A socket at that port, whose calls don't wait.
fn bind<R: Net>(rt: &R, port: u16) -> io::Result<UdpSocket> {
    let socket = UdpSocket::bind(rt, local(port))?;
    socket.set_nonblocking(true)?;
    Ok(socket)
}

impl<'a, R: Net> UdpLink<'a, R> {
    ghost use Rattle.mesh_link.specs.Sockets.{port_of, faults_of};

    /// A link that is not open.
    pub fn new(rt: &'a R) -> UdpLink<'a, R>
        ensures port { port_of result ≡ None }
        ensures faults { faults_of result ≡ 0 }
    {
        UdpLink {
            rt,
            opened: None,
            faults: 0,
        }
    }

    // Counts a fault.
    fn fail(&mut self)
        ensures others { self.new ≡ record self.old { faults = faults_of self.new } }
        ensures rose { Rose (faults_of self.old) (faults_of self.new) }
        ensures later { faults_of self.old ≤ faults_of self.new }
    {
        self.faults = self.faults.saturating_add(1);
    }
}

impl<R: Net> Link for UdpLink<'_, R> {
    ghost use Rattle.mesh_link.specs.Sockets.{port_of, faults_of};

    ghost port = { port_of };

    ghost arrived = { λ l. None };

    ghost sent = { λ l. None };

    ghost faults = { faults_of };

    fn open(&mut self, at: u16) -> Result<(), Failed> {
        match bind(self.rt, at) {
            Ok(socket) => {
                self.opened = Some(Opened { port: at, socket });
                Ok(())
            }
            Err(_) => {
                self.fail();
                Err(Failed)
            }
        }
    }

    fn receive(&mut self, buf: &mut [u8]) -> Result<Option<(u16, usize)>, Failed> {
        let Some(opened) = &self.opened else {
            unreachable!();
        };
        match opened.socket.recv_from(buf) {
            Ok((n, from)) => Ok(Some((from.port(), n))),
            Err(e) if e.kind() == io::ErrorKind::WouldBlock => Ok(None),
            Err(_) => {
                self.fail();
                Err(Failed)
            }
        }
    }

    fn send(&mut self, to: u16, bytes: &[u8]) -> Result<(), Failed> {
        let Some(opened) = &self.opened else {
            unreachable!();
        };
        let count = match opened.socket.send_to(bytes, local(to)) {
            Ok(n) => n,
            Err(_) => usize::MAX,
        };
        if count == bytes.len() {
            return Ok(());
        }
        self.fail();
        Err(Failed)
    }
}
