//! Memory for packets to come.
ghost use Rattle.std.specs.Prelude.{◌≡◌, ◌<◌, ◌≤◌, ◌-◌, ◌↔◌, length, IsTrue, OnOk, OnErr, IfSome};
ghost use Rattle.mesh_radio.specs.Kept.{more_memory};

use crate::size_class::SizeClass;
use mesh_base::{Bytes, NoMemory};
use std::alloc::Global;
use std::marker::Model;

// Most packets are no longer than this: requests, replies and short data.
const SHORT: usize = 64;

/// Memory for packets to come, whatever their lengths are. For each there is a short room and a
/// long one, so that a short packet doesn't use up a long room. The shortest packets use up none.
#[derive(Drop)]
pub struct Reserve {
    alloc: Global,
    short: SizeClass,
    long: SizeClass,
    // There is room for this many packets in both size classes.
    packets: usize,
}

impl Model for Reserve {
    ghost use Rattle.std.specs.Prelude.{◌≡◌, ◌≤◌};
    ghost use Rattle.mesh_radio.specs.Kept.{Memory};

    ghost Value = { Memory };

    ghost view = { λ r. record { room = r.packets; most = r.long.most } };

    ghost invariant = { λ r. (r.packets ≤ r.short.room)
        × (r.packets ≤ r.long.room)
        × (r.short.most ≡ 64) };
}

impl Reserve {
    /// No room.
    pub fn new(alloc: Global) -> Reserve
        ensures { result ≡ record { room = 0; most = 0 } }
    {
        Reserve {
            alloc,
            short: SizeClass::new(alloc, SHORT),
            long: SizeClass::new(alloc, 0),
            packets: 0,
        }
    }

    /// The allocator of the memory.
    pub fn alloc(&self) -> Global {
        self.alloc
    }

    /// Whether there is room for this many packets, each of this many bytes.
    pub fn has(&self, count: usize, bytes: usize) -> bool
        ensures { IsTrue result ↔ ((count ≤ self.now.room) × (bytes ≤ self.now.most)) }
    {
        count <= self.packets && bytes <= self.long.bytes()
    }

    /// Makes sure that there is room for this many packets, each of this many bytes. Rooms that are
    /// large enough are kept.
    #[inline(always)]
    pub fn make(&mut self, count: usize, bytes: usize) -> Result<(), NoMemory>
        ensures ok { OnOk result ((count ≤ self.new.room) × (bytes ≤ self.new.most)) }
        ensures exact { OnOk result (self.new ≡ more_memory self.old count bytes) }
        ensures refused { OnErr result (self.new ≡ self.old) }
    {
        if bytes <= self.long.bytes() && count <= self.short.count() && count <= self.long.count() {
            // The rooms that short packets didn't use up are there.
            self.packets = self.packets.max(count);
            return Ok(());
        }
        self.make_more(count, bytes)
    }

    // `make`, when rooms may be missing.
    #[cold]
    #[inline(never)]
    fn make_more(&mut self, count: usize, bytes: usize) -> Result<(), NoMemory>
        ensures ok { OnOk result ((count ≤ self.new.room) × (bytes ≤ self.new.most)) }
        ensures exact { OnOk result (self.new ≡ more_memory self.old count bytes) }
        ensures refused { OnErr result (self.new ≡ self.old) }
    {
        let packets = self.packets.max(count);
        self.short.fill_up(self.alloc, packets)?;
        if bytes <= self.long.bytes() {
            self.long.fill_up(self.alloc, packets)?;
        } else {
            let mut long = SizeClass::new(self.alloc, bytes);
            long.fill_up(self.alloc, packets)?;
            self.long = long;
        }
        self.packets = packets;
        Ok(())
    }

    /// The bytes of a packet of which this many copies fly, in the memory of at most one room. What
    /// the packet doesn't need of a long room is given back, so that a packet takes up its own
    /// length.
    #[inline(always)]
    pub fn fill(&mut self, bytes: &[u8], copies: usize) -> Bytes
        requires room { (1 ≤ copies) × (copies ≤ self.old.room) }
        requires fits { length bytes.now ≤ self.old.most }
        ensures bytes { result ≡ bytes.now }
        ensures room { self.new ≡ record self.old { room = self.old.room - copies } }
    {
        if let Some(own) = Bytes::short(bytes) {
            self.packets -= copies;
            return own;
        }
        self.fill_room(bytes, copies)
    }

    // `fill`, for a packet too long to be kept inline.
    #[inline(never)]
    fn fill_room(&mut self, bytes: &[u8], copies: usize) -> Bytes
        requires room { (1 ≤ copies) × (copies ≤ self.old.room) }
        requires fits { length bytes.now ≤ self.old.most }
        ensures bytes { result ≡ bytes.now }
        ensures room { self.new ≡ record self.old { room = self.old.room - copies } }
    {
        self.packets -= copies;
        if bytes.len() <= SHORT {
            return self.short.take().fill(bytes);
        }
        let mut own = self.long.take().fill(bytes);
        own.shrink();
        own
    }

    /// The bytes of a packet, for one copy: those given, which share another copy's memory, or else
    /// those in the memory of at most one room.
    pub fn fill_one(&mut self, shared: Option<Bytes>, bytes: &[u8]) -> Bytes
        requires room { 1 ≤ self.old.room }
        requires fits { length bytes.now ≤ self.old.most }
        requires same { IfSome shared (λ s. s ≡ bytes.now) }
        ensures bytes { result ≡ bytes.now }
        ensures room { self.new ≡ record self.old { room = self.old.room - 1 } }
    {
        match shared {
            Some(second) => {
                self.packets -= 1;
                second
            }
            None => self.fill(bytes, 1),
        }
    }

    /// The bytes of a packet once more, for one copy: shared with the packet or, if they can't be,
    /// in the memory of at most one room.
    pub fn double(&mut self, packet: &mut Bytes) -> Bytes
        requires room { 1 ≤ self.old.room }
        requires fits { length packet.old ≤ self.old.most }
        ensures same { packet.new ≡ packet.old }
        ensures bytes { result ≡ packet.old }
        ensures room { self.new ≡ record self.old { room = self.old.room - 1 } }
    {
        let shared = packet.share(self.alloc);
        self.fill_one(shared, packet.as_slice())
    }
}
