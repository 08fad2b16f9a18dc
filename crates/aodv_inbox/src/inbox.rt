//! What waits for a node's turns.
ghost use Rattle.std.specs.Prelude.{◌≡◌, ◌<◌, ◌≤◌, ◌++◌, ◌∷◌, [], ◌+◌, ◌-◌, ◌↔◌, length, drop, slice_get, option_copied, IfOk, IfSome, OnOk, OnErr, IsTrue, Some, None, IsOk};
ghost use Rattle.std.specs.List.{AllByRecursion};
ghost use Rattle.aodv_inbox.specs.Queues.{IsItem};

use circular_buffer::HeapCircularBuffer;
use mesh_base::{Item, NoMemory};
use std::alloc::Global;
use std::marker::Model;

/// The items that wait, with the one that came first at the front.
#[derive(Drop)]
pub struct Inbox {
    ring: HeapCircularBuffer<Item>,
}

impl Model for Inbox {
    ghost use Rattle.std.specs.Prelude.{length, ◌-◌};
    ghost use Rattle.std.specs.List.{AllByRecursion};
    ghost use Rattle.aodv_inbox.specs.Queues.{Queue, IsItem};

    ghost Value = { Queue };

    ghost view = { λ a. record {
      items = a.ring.items;
      room = a.ring.capacity - length a.ring.items;
    } };

    ghost invariant = { λ a. AllByRecursion IsItem a.ring.items };
}

impl Inbox {
    /// An empty inbox.
    pub fn new(alloc: Global) -> Result<Inbox, NoMemory>
        ensures { IfOk result (λ inbox. inbox.items ≡ []) }
    {
        Ok(Inbox {
            ring: HeapCircularBuffer::with_capacity(alloc, 0)?,
        })
    }

    /// Makes room for one more item. It asks for memory only if there is no room yet. A full ring
    /// grows by half, so that many pushes take time in proportion to their number.
    pub fn make_room(&mut self) -> Result<(), NoMemory>
        ensures items { self.new.items ≡ self.old.items }
        ensures here { OnOk result (0 < self.new.room) }
        ensures there { 0 < self.old.room → IsOk result }
        ensures still { 0 < self.old.room → self.new ≡ self.old }
        ensures keeps { self.old.room ≤ self.new.room }
        ensures refused { OnErr result (self.new ≡ self.old) }
    {
        let most = self.ring.capacity();
        if self.ring.len() < most {
            return Ok(());
        }
        let more = if most < 4 { 4 } else { most + most / 2 };
        match self.ring.resize(more) {
            Ok(()) => Ok(()),
            Err(_) => Err(NoMemory),
        }
    }

    /// Adds an item at the back. It uses up the room for one.
    pub fn push(&mut self, item: Item)
        requires room { 0 < self.old.room }
        requires item { IsItem item }
        ensures items { self.new.items ≡ self.old.items ++ item ∷ [] }
        ensures room { self.new.room ≡ self.old.room - 1 }
    {
        match self.ring.try_push_back(item) {
            Ok(()) => {}
            Err(_) => unreachable!(),
        }
    }

    /// Takes the item at the front, if there is one.
    pub fn pop(&mut self) -> Option<Item>
        ensures front { result ≡ slice_get self.old.items 0 }
        ensures rest { self.new.items ≡ drop 1 self.old.items }
        ensures keeps { self.old.room ≤ self.new.room }
        ensures item { IfSome result IsItem }
    {
        self.ring.pop_front()
    }

    /// The item at the front, if there is one.
    pub fn front(&self) -> Option<&Item>
        ensures front { option_copied result ≡ slice_get self.now.items 0 }
        ensures item { IfSome (option_copied result) IsItem }
    {
        self.ring.front()
    }

    /// The number of items.
    pub fn len(&self) -> usize
        ensures value { result ≡ length self.now.items }
        ensures all_items { AllByRecursion IsItem self.now.items }
    {
        self.ring.len()
    }

    /// Whether no item waits.
    pub fn is_empty(&self) -> bool
        ensures { IsTrue result ↔ (self.now.items ≡ []) }
    {
        self.ring.is_empty()
    }

    /// The k-th item from the front, counted from 0.
    pub fn at(&self, k: usize) -> &Item
        requires { k < length self.now.items }
        ensures value { slice_get self.now.items k ≡ Some result.now }
        ensures item { IsItem result.now }
    {
        match self.ring.get(k) {
            Some(item) => item,
            None => unreachable!(),
        }
    }
}
