//! The datagrams that a router receives.
ghost use Rattle.std.specs.Prelude.{◌≡◌, ◌<◌, ◌+◌, List, length, codes, is_some, true, OnOk, IfErr, IsErrOf};
ghost use Rattle.mesh_io.specs.Cause.{HasCause};
ghost use Rattle.mesh_io.specs.Puts.{Puts};
ghost use Rattle.mesh_router.specs.Polls.{heard_line, strange_port_line};
ghost use Rattle.mesh_router.specs.Outputs.{HasCauses, HasSinkCause};
ghost use Rattle.mesh_router.specs.Seen.{HasCounts, IsGrown, most_counted, most_counted_before_line};
ghost use Rattle.mesh_script.specs.Peers.{at_port};
ghost use Rattle.mesh_router.specs.Runs.{IsNotFull, IsTaken, IsPollStep, IsPollRun};
ghost use Rattle.mesh_router.specs.Short.{IsPollShort};

use crate::casts::push_node;
use crate::router::Router;
use crate::stop::{Scratch, Stop};
use mesh_base::{Bytes, LineBuf, Mesh, push_number, push_text};
use mesh_io::{PutFault, Sink, put_all};
use mesh_link::Link;
use std::alloc::Global;

// Writes that a datagram of `size` bytes was heard from a peer.
fn put_heard<O: Sink>(
    mesh: &Mesh,
    from: usize,
    size: usize,
    buf: &mut LineBuf,
    out: &mut O,
) -> Result<(), PutFault>
    requires { from < length mesh.now }
    ensures text { Puts (O.held out.old) (O.held out.new) (heard_line mesh.now from size) result }
    ensures cause { HasCause (O.faults out.old) (O.faults out.new) result }
{
    buf.clear();
    push_node(buf, b"  heard ", mesh, from);
    push_number(buf, size as u64);
    buf.push(b'\n');
    put_all(out, buf.as_slice())
}

#[tactic(auto, using(std::proofs::lemmas::List::append_assoc))]
fn push_strange_port(out: &mut LineBuf, port: u16)
    ensures { out.new.items ≡ strange_port_line port }
{
    out.clear();
    push_text(out, b"  drop port ");
    push_number(out, u64::from(port));
    out.push(b'\n');
}

// Writes that a datagram from this port is dropped, since no peer is at the port.
fn put_strange_port<O: Sink>(port: u16, buf: &mut LineBuf, out: &mut O) -> Result<(), PutFault>
    ensures text { Puts (O.held out.old) (O.held out.new) (strange_port_line port) result }
    ensures cause { HasCause (O.faults out.old) (O.faults out.new) result }
{
    push_strange_port(buf, port);
    put_all(out, buf.as_slice())
}

impl Router {
    // Takes a datagram that came from this port: a peer's joins the inbox, any other is dropped.
    fn take<O: Sink>(
        &mut self,
        alloc: Global,
        port: u16,
        bytes: &[u8],
        buf: &mut LineBuf,
        out: &mut O,
    ) -> Result<(), Stop>
        requires few { HasCounts most_counted self.old }
        ensures taken { IsTaken self.old port bytes.now (O.held out.old) (O.held out.new)
            self.new result }
        ensures memory { IsErrOf result Stop.NoMemory
            → is_some (at_port self.old.peers port) ≡ true }
        ensures grown { OnOk result (IsGrown 1 self.old self.new) }
        ensures peers { self.new.peers ≡ self.old.peers }
        ensures cause { HasSinkCause (O.faults out.old) (O.faults out.new) result }
        ensures full { IfErr result IsNotFull }
    {
        // This call says that the node itself is at no port.
        let _mesh = self.peers.mesh();
        match self.peers.at_port(port) {
            Some(from) => {
                let copied = Bytes::copy_of(alloc, bytes)?;
                self.node.make_room()?;
                self.node.hear(from, copied);
                self.heard += 1;
                put_heard(self.peers.mesh(), from, bytes.len(), buf, out)?;
            }
            None => {
                self.dropped += 1;
                put_strange_port(port, buf, out)?;
            }
        }
        Ok(())
    }
}

impl Router {
    // Receives a datagram, and returns false if none is there.
    fn poll<O: Sink, L: Link>(
        &mut self,
        alloc: Global,
        scratch: &mut Scratch,
        out: &mut O,
        link: &mut L,
    ) -> Result<bool, Stop>
        requires open { is_some (L.port link.old) ≡ true }
        requires few { HasCounts most_counted self.old }
        ensures poll { IsPollStep self.old (L.arrived link.old) (L.arrived link.new)
            (O.held out.old, L.sent link.old) (O.held out.new, L.sent link.new) self.new result }
        ensures memory { IsErrOf result Stop.NoMemory
            → IsPollShort self.old.peers (L.arrived link.old) (L.arrived link.new) }
        ensures grown { OnOk result (IsGrown 1 self.old self.new) }
        ensures peers { self.new.peers ≡ self.old.peers }
        ensures causes { HasCauses (O.faults out.old) (O.faults out.new)
            (L.faults link.old) (L.faults link.new) result }
        ensures full { IfErr result IsNotFull }
        ensures port { L.port link.new ≡ L.port link.old }
    {
        match link.receive(&mut scratch.datagram)? {
            None => {
                put_all(out, b"  none\n")?;
                Ok(false)
            }
            Some((port, size)) => {
                let bytes = &scratch.datagram[..size];
                self.take(alloc, port, bytes, &mut scratch.line, out)?;
                Ok(true)
            }
        }
    }

    // Receives up to `count` datagrams, and stops as soon as none is there.
    pub(crate) fn polls<O: Sink, L: Link>(
        &mut self,
        alloc: Global,
        count: u32,
        scratch: &mut Scratch,
        out: &mut O,
        link: &mut L,
    ) -> Result<(), Stop>
        requires open { is_some (L.port link.old) ≡ true }
        requires few { HasCounts most_counted_before_line self.old }
        ensures polls { IsPollRun count self.old (L.arrived link.old) (L.arrived link.new)
            (O.held out.old, L.sent link.old) (O.held out.new, L.sent link.new) self.new result }
        ensures memory { IsErrOf result Stop.NoMemory
            → IsPollShort self.old.peers (L.arrived link.old) (L.arrived link.new) }
        ensures grown { OnOk result (IsGrown count self.old self.new) }
        ensures peers { self.new.peers ≡ self.old.peers }
        ensures causes { HasCauses (O.faults out.old) (O.faults out.new)
            (L.faults link.old) (L.faults link.new) result }
        ensures full { IfErr result IsNotFull }
        ensures port { L.port link.new ≡ L.port link.old }
    {
        for _i in 0..count {
            if !self.poll(alloc, scratch, out, link)? {
                return Ok(());
            }
        }
        Ok(())
    }
}
