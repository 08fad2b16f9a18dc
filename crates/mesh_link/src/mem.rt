//! A link in memory, which fails at given calls.
ghost use Rattle.std.specs.Prelude.{◌≡◌, ◌≤◌, ◌<◌, length, Some, None, IfOk, OnOk, OnErr, IfSome};
ghost use Rattle.mesh_io.specs.Cause.{HasCause};
ghost use Rattle.mesh_link.specs.Datagrams.{datagram, Receives, Sends};
ghost use Rattle.mesh_link.specs.Memory.{new_link, with_arrival, sent_at, AreRooms, after_open, after_receive, after_send};

use crate::link::Link;
use crate::sure::copy_front;
use mesh_base::{Bytes, LONGEST_PACKET, NoMemory, Room};
use mesh_io::{Calls, Failed};
use std::alloc::Global;
use std::marker::Model;

/// A datagram, from a port or to it.
#[derive(Drop)]
struct Parcel {
    port: u16,
    bytes: Bytes,
}

impl Model for Parcel {
    ghost use Rattle.mesh_link.specs.Datagrams.{Datagram};
    ghost use Rattle.mesh_link.specs.Memory.{datagram_code};

    ghost Value = { Datagram };

    ghost coded = { datagram_code };

    ghost view = { λ p. record { port = p.port; bytes = p.bytes } };
}

/// Keeps the datagrams that arrive until they are received, and those that are sent, as long as
/// there is room.
#[derive(Drop)]
pub struct MemLink {
    port: Option<u16>,
    arrived: Vec<Parcel>,
    // How many of the arrived datagrams were received.
    at: usize,
    sent: Vec<Parcel>,
    // Memory for the datagrams that can still be sent.
    rooms: Vec<Room>,
    calls: Calls,
}

impl Model for MemLink {
    ghost use Rattle.std.specs.Prelude.{◌≤◌, ◌+◌, length, drop, vec_capacity};
    ghost use Rattle.mesh_link.specs.Memory.{LinkSeen, AreRooms};

    ghost Value = { LinkSeen };

    ghost view = { λ l. record {
      port = l.port;
      arrived = drop l.at l.arrived.items;
      sent = l.sent.items;
      room = length l.rooms.items;
      calls = l.calls;
    } };

    ghost invariant = { λ l. (l.at ≤ length l.arrived.items)
        × (length l.sent.items + length l.rooms.items ≤ vec_capacity l.sent)
        × AreRooms l.rooms.items };
}

// Rooms for `count` packets, each for the longest.
fn rooms_for(alloc: Global, count: usize) -> Result<Vec<Room>, NoMemory>
    ensures count { IfOk result (λ rooms. length rooms.items ≡ count) }
    ensures each { IfOk result (λ rooms. AreRooms rooms.items) }
{
    let mut rooms = Vec::with_capacity(alloc, count)?;
    for _ in 0..count {
        rooms.push(Room::new(alloc, LONGEST_PACKET)?)?;
    }
    Ok(rooms)
}

impl MemLink {
    /// A link that isn't open, with room for `room` datagrams to be sent, each of at most
    /// `LONGEST_PACKET` bytes. It fails exactly at the calls of `open`, `receive` and `send` whose
    /// numbers, counted together from 1, are in `fails`, and at a send that finds no room or whose
    /// datagram is longer than that.
    pub fn new(alloc: Global, room: usize, fails: &[u64]) -> Result<MemLink, NoMemory>
        ensures { IfOk result (λ link. link ≡ new_link room fails.now) }
    {
        Ok(MemLink {
            port: None,
            arrived: Vec::new(alloc),
            at: 0,
            sent: Vec::with_capacity(alloc, room)?,
            rooms: rooms_for(alloc, room)?,
            calls: Calls::new(alloc, fails)?,
        })
    }

    /// One more datagram arrives.
    pub fn arrive(&mut self, alloc: Global, port: u16, bytes: &[u8]) -> Result<(), NoMemory>
        ensures arrived { OnOk result (self.new ≡ with_arrival self.old port bytes.now) }
        ensures refused { OnErr result (self.new ≡ self.old) }
    {
        let bytes = Bytes::copy_of(alloc, bytes)?;
        match self.arrived.push(Parcel { port, bytes }) {
            Ok(()) => Ok(()),
            Err(_) => Err(NoMemory),
        }
    }

    /// How many datagrams were sent.
    pub fn sent_count(&self) -> usize
        ensures { result ≡ length self.now.sent }
    {
        self.sent.len()
    }

    /// The port to which the i-th datagram was sent, and its bytes.
    pub fn sent_at(&self, i: usize) -> (u16, &[u8])
        requires { i < length self.now.sent }
        ensures { datagram result.0 result.1.now ≡ sent_at self.now i }
    {
        let parcel = &self.sent[i];
        (parcel.port, parcel.bytes.as_slice())
    }
}

impl Link for MemLink {
    ghost port = { λ l. l.port };

    ghost arrived = { λ l. Some l.arrived };

    ghost sent = { λ l. Some l.sent };

    ghost faults = { λ l. l.calls.failed };

    fn open(&mut self, at: u16) -> Result<(), Failed>
        requires { self.old.port ≡ None }
        ensures opened { OnOk result (self.new.port ≡ Some at) }
        ensures refused { OnErr result (self.new.port ≡ None) }
        ensures arrived { Some self.new.arrived ≡ Some self.old.arrived }
        ensures sent { Some self.new.sent ≡ Some self.old.sent }
        ensures cause { HasCause self.old.calls.failed self.new.calls.failed result }
        ensures after { self.new ≡ after_open self.old at }
    {
        if self.calls.next() {
            self.calls.fail();
            return Err(Failed);
        }
        self.port = Some(at);
        Ok(())
    }

    fn receive(&mut self, buf: &mut [u8]) -> Result<Option<(u16, usize)>, Failed>
        ensures bound { IfOk result (λ o. IfSome o (λ p. p.1 ≤ length buf.new)) }
        ensures length { length buf.new ≡ length buf.old }
        ensures arrived { Receives (Some self.old.arrived) (Some self.new.arrived) result buf.new }
        ensures port { self.new.port ≡ self.old.port }
        ensures sent { Some self.new.sent ≡ Some self.old.sent }
        ensures cause { HasCause self.old.calls.failed self.new.calls.failed result }
        ensures after { self.new ≡ after_receive self.old }
    {
        if self.calls.next() {
            self.calls.fail();
            return Err(Failed);
        }
        if self.at == self.arrived.len() {
            return Ok(None);
        }
        let parcel = &self.arrived[self.at];
        let n = copy_front(parcel.bytes.as_slice(), buf);
        let port = parcel.port;
        self.at += 1;
        Ok(Some((port, n)))
    }

    fn send(&mut self, to: u16, bytes: &[u8]) -> Result<(), Failed>
        ensures sent { Sends (Some self.old.sent) (Some self.new.sent) to bytes.now result }
        ensures port { self.new.port ≡ self.old.port }
        ensures arrived { Some self.new.arrived ≡ Some self.old.arrived }
        ensures cause { HasCause self.old.calls.failed self.new.calls.failed result }
        ensures after { self.new ≡ after_send self.old to bytes.now }
    {
        if self.calls.next() || self.rooms.is_empty() || bytes.len() > LONGEST_PACKET {
            self.calls.fail();
            return Err(Failed);
        }
        let Some(room) = self.rooms.pop() else {
            unreachable!();
        };
        let parcel = Parcel {
            port: to,
            bytes: room.fill(bytes),
        };
        match self.sent.push(parcel) {
            Ok(()) => Ok(()),
            Err(_) => unreachable!(),
        }
    }
}
