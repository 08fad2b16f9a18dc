//! The data that wait for one destination.
ghost use Rattle.std.specs.Prelude.{◌≡◌, ◌<◌, ◌≤◌, ◌++◌, ◌∷◌, [], ◌+◌, ◌-◌, ◌↔◌, true, length, drop, slice_index_or, nat_lt, IfSome, IsSome, IsTrue, IsOk, OnOk, OnErr};
ghost use Rattle.std.specs.VecDeque.{deque_len, deque_capacity};

use mesh_base::{Bytes, NoMemory};
use std::alloc::Global;
use std::collections::VecDeque;
use std::marker::Model;

/// Slots for the data of one destination.
#[derive(Drop)]
struct Slots {
    // The data after the first.
    rest: VecDeque<Bytes>,
    // Whether room for one more was made. Other free slots aren't promised to anyone.
    roomy: bool,
    // Most destinations that have data have one datum, which takes no memory of its own. Whether
    // there is one is kept next to what else is asked of slots, in one line of the cache.
    first: Option<Bytes>,
}

impl Model for Slots {
    ghost use Rattle.aodv_waiting.specs.Rows.{RoomyRow};

    ghost Value = { RoomyRow };

    ghost use Rattle.aodv_waiting.specs.Slots.{bodies_of, room_if, AreSlots};

    ghost view = { λ p. record { bodies = bodies_of p.first p.rest; room = room_if p.roomy } };

    ghost invariant = { λ p. AreSlots p.first p.rest p.roomy };
}

/// The data for one destination, with the one that came first at the front. It takes memory only
/// while there are data, or while there is room that was made for one.
#[derive(Drop)]
pub(crate) struct Row {
    slots: Option<Box<Slots>>,
}

impl Model for Row {
    ghost use Rattle.aodv_waiting.specs.Rows.{RoomyRow};

    ghost Value = { RoomyRow };

    ghost use Rattle.aodv_waiting.specs.Rows.{row_of};

    ghost view = { λ r. row_of r.slots };
}

// Makes room for one more datum. A full ring doubles, so that many data take time in proportion to
// their number.
fn make_room_in(ring: &mut VecDeque<Bytes>) -> Result<(), NoMemory>
    ensures items { ring.new.items ≡ ring.old.items }
    ensures here { OnOk result (deque_len ring.new < deque_capacity ring.new) }
    ensures keeps { deque_capacity ring.old ≤ deque_capacity ring.new }
{
    let most = ring.capacity();
    if ring.len() < most {
        return Ok(());
    }
    let more = most.max(2);
    match ring.reserve_exact(more) {
        Ok(()) => Ok(()),
        Err(_) => Err(NoMemory),
    }
}

impl Slots {
    // Slots without data, with room for one datum.
    fn new(alloc: Global) -> Slots
        ensures bodies { result.bodies ≡ [] }
        ensures room { result.room ≡ 1 }
    {
        Slots {
            first: None,
            rest: VecDeque::new(alloc),
            roomy: true,
        }
    }

    fn make_room(&mut self) -> Result<(), NoMemory>
        ensures bodies { self.new.bodies ≡ self.old.bodies }
        ensures here { OnOk result (0 < self.new.room) }
        ensures there { 0 < self.old.room → IsOk result }
        ensures still { 0 < self.old.room → self.new ≡ self.old }
        ensures keeps { self.old.room ≤ self.new.room }
        ensures refused { OnErr result (self.new ≡ self.old) }
    {
        if self.roomy {
            return Ok(());
        }
        if self.first.is_some() {
            make_room_in(&mut self.rest)?;
        }
        self.roomy = true;
        Ok(())
    }

    fn push(&mut self, body: Bytes)
        requires { 0 < self.old.room }
        ensures bodies { self.new.bodies ≡ self.old.bodies ++ body ∷ [] }
        ensures room { self.new.room ≡ self.old.room - 1 }
    {
        self.roomy = false;
        if self.first.is_none() {
            self.first = Some(body);
            return;
        }
        self.rest.push_back_reserved(body);
    }

    fn pop(&mut self)
        ensures bodies { self.new.bodies ≡ drop 1 self.old.bodies }
        ensures room { self.new.room ≡ self.old.room }
    {
        self.first = self.rest.pop_front();
    }

    fn is_empty(&self) -> bool
        ensures { IsTrue result ↔ (self.now.bodies ≡ []) }
    {
        self.first.is_none()
    }

    fn has_room(&self) -> bool
        ensures { result ≡ nat_lt 0 self.now.room }
    {
        self.roomy
    }

    fn len(&self) -> usize
        ensures { result ≡ length self.now.bodies }
    {
        match &self.first {
            Some(_) => 1 + self.rest.len(),
            None => 0,
        }
    }

    fn get(&self, k: usize) -> Option<&Bytes>
        ensures some { IsSome result ↔ (k < length self.now.bodies) }
        ensures body { IfSome result (λ b. b.now ≡ slice_index_or self.now.bodies k b.now) }
    {
        if k == 0 {
            return self.first.as_ref();
        }
        self.rest.get(k - 1)
    }
}

impl Row {
    /// No data, and no memory.
    pub(crate) fn new() -> Row
        ensures { result.bodies ≡ [] }
    {
        Row { slots: None }
    }

    /// Makes room for one more datum.
    pub(crate) fn make_room(&mut self, alloc: Global) -> Result<(), NoMemory>
        ensures bodies { self.new.bodies ≡ self.old.bodies }
        ensures here { OnOk result (0 < self.new.room) }
        ensures there { 0 < self.old.room → IsOk result }
        ensures still { 0 < self.old.room → self.new ≡ self.old }
        ensures keeps { self.old.room ≤ self.new.room }
        ensures refused { OnErr result (self.new ≡ self.old) }
    {
        if let Some(slots) = &mut self.slots {
            return slots.make_room();
        }
        self.slots = Some(Box::new(alloc, Slots::new(alloc))?);
        Ok(())
    }

    /// Adds a datum after the others. It uses up the room for one.
    pub(crate) fn push(&mut self, body: Bytes)
        requires { 0 < self.old.room }
        ensures bodies { self.new.bodies ≡ self.old.bodies ++ body ∷ [] }
        ensures room { self.new.room ≡ self.old.room - 1 }
    {
        match &mut self.slots {
            Some(slots) => slots.push(body),
            None => unreachable!(),
        }
    }

    /// Removes the datum in front, and returns whether none is left. If none is, the memory is
    /// given back, unless some of it is promised.
    pub(crate) fn pop(&mut self) -> bool
        ensures bodies { self.new.bodies ≡ drop 1 self.old.bodies }
        ensures empty { IsTrue result ↔ (self.new.bodies ≡ []) }
        ensures room { self.new.room ≡ self.old.room }
    {
        let Some(slots) = &mut self.slots else {
            return true;
        };
        slots.pop();
        if !slots.is_empty() {
            return false;
        }
        if !slots.has_room() {
            self.slots = None;
        }
        true
    }

    /// The number of data.
    pub(crate) fn len(&self) -> usize
        ensures { result ≡ length self.now.bodies }
    {
        match &self.slots {
            Some(slots) => slots.len(),
            None => 0,
        }
    }

    /// The k-th datum from the front, counted from 0, if there is one.
    pub(crate) fn get(&self, k: usize) -> Option<&Bytes>
        ensures some { IsSome result ↔ (k < length self.now.bodies) }
        ensures body { IfSome result (λ b. b.now ≡ slice_index_or self.now.bodies k b.now) }
    {
        match &self.slots {
            Some(slots) => slots.get(k),
            None => None,
        }
    }
}
