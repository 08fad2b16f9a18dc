//! Rooms that are each large enough for the same number of bytes.
ghost use Rattle.std.specs.Prelude.{◌≡◌, ◌<◌, ◌≤◌, ◌-◌, ◌+◌, length, OnOk, OnErr};

use mesh_base::{NoMemory, Room};
use std::alloc::Global;
use std::marker::Model;

/// Rooms, each for this many bytes.
#[derive(Drop)]
pub struct SizeClass {
    rooms: Vec<Room>,
    bytes: usize,
}

impl Model for SizeClass {
    ghost use Rattle.std.specs.Prelude.{length};
    ghost use Rattle.mesh_radio.specs.Kept.{Memory, AreLarge};

    ghost Value = { Memory };

    ghost view = { λ s. record { room = length s.rooms.items; most = s.bytes } };

    ghost invariant = { λ s. AreLarge s.bytes s.rooms.items };
}

impl SizeClass {
    /// No room.
    pub fn new(alloc: Global, bytes: usize) -> SizeClass
        ensures { result ≡ record { room = 0; most = bytes } }
    {
        SizeClass {
            rooms: Vec::new(alloc),
            bytes,
        }
    }

    /// Makes sure that there are this many rooms. If it is refused, some may have been added.
    pub fn fill_up(&mut self, alloc: Global, count: usize) -> Result<(), NoMemory>
        ensures most { self.new.most ≡ self.old.most }
        ensures keeps { self.old.room ≤ self.new.room }
        ensures ok { OnOk result (count ≤ self.new.room) }
    {
        for _ in self.rooms.len()..count {
            self.put_one(alloc)?;
        }
        Ok(())
    }

    // Adds one room.
    fn put_one(&mut self, alloc: Global) -> Result<(), NoMemory>
        ensures ok { OnOk result (self.new ≡ record self.old { room = self.old.room + 1 }) }
        ensures refused { OnErr result (self.new ≡ self.old) }
    {
        let room = Room::new(alloc, self.bytes)?;
        self.rooms.push(room)?;
        Ok(())
    }

    /// How many rooms there are.
    pub fn count(&self) -> usize
        ensures { result ≡ self.now.room }
    {
        self.rooms.len()
    }

    /// The number of bytes for which each room is large enough.
    pub fn bytes(&self) -> usize
        ensures { result ≡ self.now.most }
    {
        self.bytes
    }

    /// Takes a room.
    pub fn take(&mut self) -> Room
        requires { 0 < self.old.room }
        ensures room { self.new ≡ record self.old { room = self.old.room - 1 } }
        ensures large { self.old.most ≤ result }
    {
        match self.rooms.pop() {
            Some(room) => room,
            None => unreachable!(),
        }
    }
}
