//! Copies of packets in flight, by rising id.
ghost use Rattle.std.specs.Prelude.{◌≡◌, ◌<◌, ◌≤◌, ◌+◌, ◌^◌, ◌∷◌, [], length, slice_get, option_map, Some, OnOk, OnErr, IsOk, IfSome, IfNone, if◌then◌else◌};
ghost use Rattle.mesh_base.specs.Views.{flying_seen};
ghost use Rattle.mesh_base.specs.Members.{member_list};
ghost use Rattle.aodv_wire.specs.Encodes.{is_data};
ghost use Rattle.mesh_radio.specs.Copies.{held_seen, find_copy, IsCopyWithin, without, from_id, data_in, AreBefore, AreNumbered};
ghost use Rattle.mesh_radio.specs.Kept.{with_flights, with_flight, with_second, with_room};

use crate::casts::{
    Cast, Casts, LONGEST_INLINE, Least, double_packet, find, find_again, find_next, front_of,
    launch, least_from, remove_at, share_last,
};
use crate::clearing::{clear, take_packet};
use crate::gathering::gather;
use crate::reserve::Reserve;
use aodv_wire::is_data;
use mesh_base::{Bytes, Flying, FlyingView, MOST_NODES, NoMemory, NodeSet};
use std::alloc::Global;
use std::hash::BuildHasherDefault;
use std::marker::Model;

/// A copy in flight, with the index at which it was found: a removal looks there first. Its packet,
/// which copies of one cast share, is lent as it is kept, so that it can be copied whole.
#[derive(Clone, Copy)]
pub struct Held<'a> {
    pub id: u64,
    pub from: usize,
    pub to: usize,
    pub index: usize,
    pub bytes: &'a Bytes,
}

/// The copies in flight, as casts: a cast is kept by the id of its first copy, and its copies have
/// that id and the next ones, by rising receiver. A long packet to several receivers is as many
/// casts, which share its memory. A copy is found by the position of its cast, if need be by binary
/// search, and by its rank among the receivers; clearing one bit removes it. The least copy is kept
/// separately.
#[derive(Drop)]
pub struct Copies {
    casts: Casts,
    least: Option<Least>,
    // About how many casts have no copy in flight. It only says when to sweep them.
    done: usize,
    next: u64,
    count: usize,
    of_data: usize,
    reserve: Reserve,
}

impl Model for Copies {
    ghost use Rattle.std.specs.Prelude.{◌≤◌};
    ghost use Rattle.indexmap.specs.IndexMap.{spare};
    ghost use Rattle.mesh_radio.specs.Kept.{Flights};
    ghost use Rattle.mesh_radio.specs.Casts.{copies_of, AreKept, IsLeastOf};

    ghost Value = { Flights };

    ghost view = { λ a. record {
      flying = copies_of a.casts.entries;
      next_copy = a.next;
      room = a.reserve.room;
      most = a.reserve.most;
    } };

    ghost invariant = { λ a. AreKept a.casts.entries a.next a.count a.of_data
        × (a.reserve.room ≤ spare a.casts)
        × IsLeastOf a.casts.entries a.least };
}

// This many copies if it is a data packet, else 0.
fn if_data(packet: &[u8], copies: usize) -> usize
    ensures { result ≡ (if is_data packet.now then copies else 0) }
{
    if is_data(packet) { copies } else { 0 }
}

impl Copies {
    /// No copies. The next gets this id.
    pub fn new(alloc: Global, next: u64) -> Copies
        requires { 1 ≤ next }
        ensures { result ≡ record { flying = []; next_copy = next; room = 0; most = 0 } }
    {
        Copies {
            casts: Casts::with_hasher(alloc, BuildHasherDefault::new()),
            least: None,
            done: 0,
            next,
            count: 0,
            of_data: 0,
            reserve: Reserve::new(alloc),
        }
    }

    /// How many copies are in flight.
    pub fn count(&self) -> usize
        ensures value { result ≡ length self.now.flying }
        ensures numbered { AreNumbered 1 self.now.flying self.now.next_copy }
    {
        self.count
    }

    /// How many of the copies in flight are of data.
    pub fn data_count(&self) -> usize
        ensures { result ≡ data_in self.now.flying }
    {
        self.of_data
    }

    /// The id of the next copy.
    pub fn next_id(&self) -> u64
        ensures { result ≡ self.now.next_copy }
    {
        self.next
    }

    /// The least id of a copy.
    pub fn first_id(&self) -> Option<u64>
        ensures { result ≡ option_map (λ c. c.id) (slice_get self.now.flying 0) }
    {
        let least = self.least?;
        Some(least.id)
    }

    /// The copy of this id.
    #[inline(always)]
    pub fn get(&self, id: u64) -> Option<Held<'_>>
        ensures { option_map held_seen result ≡ find_copy self.now.flying id }
    {
        let spot = find(&self.casts, &self.least, id)?;
        let (_, cast) = self.casts.get_index(spot.index)?;
        Some(Held {
            id,
            from: cast.from,
            to: spot.to,
            index: spot.index,
            bytes: &cast.bytes,
        })
    }

    /// The copy with the least id from this one on. The hint, whatever it is, affects only how long
    /// this takes: it is set to the index of the copy's cast.
    pub fn next_from(&self, id: u64, hint: &mut usize) -> Option<FlyingView<'_>>
        ensures some { let copies = self.now.flying in
            IfSome result (λ f. from_id copies id ≡ flying_seen f ∷ from_id copies (f.id + 1)) }
        ensures below { let next = self.now.next_copy in
            IfSome result (λ f. (id ≤ f.id) × (f.id < next) × (next < 2 ^ 64)) }
        ensures none { IfNone result (from_id self.now.flying id ≡ []) }
    {
        let spot = find_next(&self.casts, id, *hint)?;
        *hint = spot.index;
        let (first, cast) = self.casts.get_index(spot.index)?;
        Some(FlyingView {
            id: *first + cast.to.count_below(spot.to) as u64,
            from: cast.from,
            to: spot.to,
            bytes: cast.bytes.as_slice(),
        })
    }

    /// A copy of the packet flies to each member of the set. The copies have the next ids, by
    /// rising member. If the set is empty, as for nine of ten casts, no call is needed.
    #[inline(always)]
    pub fn cast(&mut self, from: usize, bytes: &[u8], to: &NodeSet)
        requires room { length (member_list to.now) ≤ self.old.room }
        requires fits { length bytes.now ≤ self.old.most }
        requires next { self.old.next_copy + length (member_list to.now) < 2 ^ 64 }
        ensures { self.new ≡ with_flights self.old from bytes.now (member_list to.now) }
    {
        let copies = to.count();
        if copies == 0 {
            return;
        }
        if copies > 1 && bytes.len() > LONGEST_INLINE {
            return self.launch_each(from, bytes, to);
        }
        self.launch_all(from, bytes, to, copies)
    }

    // This many copies of the packet, one or more, fly to the members of the set: no more than one
    // if the packet is long.
    #[inline(never)]
    fn launch_all(&mut self, from: usize, bytes: &[u8], to: &NodeSet, copies: usize)
        requires some { 0 < copies }
        requires all { copies ≡ length (member_list to.now) }
        requires alone { 32 < length bytes.now → copies ≤ 1 }
        requires room { copies ≤ self.old.room }
        requires fits { length bytes.now ≤ self.old.most }
        requires next { self.old.next_copy + copies < 2 ^ 64 }
        ensures { self.new ≡ with_flights self.old from bytes.now (member_list to.now) }
    {
        let cast = Cast {
            to: *to,
            left: *to,
            from,
            bytes: self.reserve.fill(bytes, copies),
        };
        self.least = launch(&mut self.casts, self.least, self.next, cast);
        self.next += copies as u64;
        self.count += copies;
        self.of_data += if_data(bytes, copies);
    }

    // A copy of a long packet flies to each member of the set. Each has a cast of its own, which is
    // an owner of the packet, so that the copy can be taken out with it.
    #[cold]
    #[inline(never)]
    fn launch_each(&mut self, from: usize, bytes: &[u8], to: &NodeSet)
        requires room { length (member_list to.now) ≤ self.old.room }
        requires fits { length bytes.now ≤ self.old.most }
        requires next { self.old.next_copy + length (member_list to.now) < 2 ^ 64 }
        ensures { self.new ≡ with_flights self.old from bytes.now (member_list to.now) }
    {
        let mut start = 0;
        'receivers: while let Some(receiver) = to.next_from(start) {
            self.launch_one(from, bytes, receiver);
            start = receiver + 1;
        }
    }

    // A copy of the packet flies to this node. It shares the packet's memory with the last cast, if
    // that has the same packet.
    fn launch_one(&mut self, from: usize, bytes: &[u8], receiver: usize)
        requires below { receiver < 256 }
        requires room { 1 ≤ self.old.room }
        requires fits { length bytes.now ≤ self.old.most }
        requires next { self.old.next_copy + 1 < 2 ^ 64 }
        ensures { self.new ≡ with_flights self.old from bytes.now (receiver ∷ []) }
    {
        let shared = share_last(&mut self.casts, self.reserve.alloc(), bytes);
        let mut to = NodeSet::new();
        to.add(receiver);
        let cast = Cast {
            to,
            left: to,
            from,
            bytes: self.reserve.fill_one(shared, bytes),
        };
        self.least = launch(&mut self.casts, self.least, self.next, cast);
        self.next += 1;
        self.count += 1;
        self.of_data += if_data(bytes, 1);
    }

    /// A second copy like the one of this id flies, with the next id. The two share the packet's
    /// memory if they can. The answer is the second copy's id and receiver. None if no copy has
    /// this id.
    pub fn double(&mut self, id: u64) -> Option<(u64, usize)>
        requires room { 1 ≤ self.old.room }
        requires fits { IsCopyWithin self.old.flying id self.old.most }
        requires next { self.old.next_copy + 1 < 2 ^ 64 }
        ensures given { let copy = find_copy self.old.flying id in
            result ≡ option_map (λ c. (self.old.next_copy, c.to)) copy }
        ensures doubled { self.new ≡ with_second self.old (find_copy self.old.flying id) }
    {
        let spot = find(&self.casts, &self.least, id)?;
        let (_, cast) = self.casts.get_index(spot.index)?;
        let from = cast.from;
        let mut to = NodeSet::new();
        to.add(spot.to);
        let second = Cast {
            to,
            left: to,
            from,
            bytes: double_packet(&mut self.casts, spot.index, &mut self.reserve),
        };
        let new = self.next;
        let more = if_data(second.bytes.as_slice(), 1);
        self.least = launch(&mut self.casts, self.least, new, second);
        self.next += 1;
        self.count += 1;
        self.of_data += more;
        Some((new, spot.to))
    }

    /// The receiver of the copy of this id.
    #[inline(always)]
    pub fn receiver(&self, id: u64) -> Option<usize>
        ensures { result ≡ option_map (λ c. c.to) (find_copy self.now.flying id) }
    {
        let spot = find(&self.casts, &self.least, id)?;
        Some(spot.to)
    }

    /// Removes the copy of this id, if it is in flight.
    #[inline(always)]
    pub fn remove(&mut self, id: u64)
        ensures { let left = without self.old.flying id in
            self.new ≡ record self.old { flying = left } }
    {
        let Some(spot) = find(&self.casts, &self.least, id) else {
            return;
        };
        self.remove_found(id, spot.to, spot.index)
    }

    /// `remove` for a copy that was found, and so is known to go to this receiver. The hint, the
    /// index at which it was found, affects only how long this takes.
    #[inline(always)]
    pub fn remove_found(&mut self, id: u64, to: usize, hint: usize)
        requires { option_map (λ c. c.to) (find_copy self.old.flying id) ≡ Some to }
        ensures { let left = without self.old.flying id in
            self.new ≡ record self.old { flying = left } }
    {
        // Read here, this is known to be the index that is found if the least copy is removed.
        let front = front_of(&self.least);
        let Some(spot) = find_again(&self.casts, &self.least, id, to, hint) else {
            return;
        };
        let Some((_, cast)) = self.casts.get_index(spot.index) else {
            return;
        };
        let less = if_data(cast.bytes.as_slice(), 1);
        remove_at(&mut self.casts, spot.index, spot.to);
        self.count -= 1;
        self.of_data -= less;
        let gone = clear(&mut self.casts, spot.index, front, &mut self.done);
        self.least = least_from(&self.casts, gone);
    }

    /// Takes the copy of this id out, with its packet, for which no memory is needed: of a long
    /// packet, its cast made this one copy. None if no copy has this id.
    pub fn take(&mut self, id: u64) -> Option<Flying>
        ensures taken { result ≡ find_copy self.old.flying id }
        ensures gone { let left = without self.old.flying id in
            self.new ≡ record self.old { flying = left } }
    {
        let front = front_of(&self.least);
        let found = find(&self.casts, &self.least, id)?;
        let (_, cast) = self.casts.get_index(found.index)?;
        let from = cast.from;
        let data = if_data(cast.bytes.as_slice(), 1);
        remove_at(&mut self.casts, found.index, found.to);
        let bytes = take_packet(&mut self.casts, found.index);
        self.count -= 1;
        self.of_data -= data;
        let gone = clear(&mut self.casts, found.index, front, &mut self.done);
        self.least = least_from(&self.casts, gone);
        Some(Flying {
            id,
            from,
            to: found.to,
            bytes,
        })
    }

    /// Adds a copy, with an id after those of the others and below the next. It shares the packet
    /// of the copy before it if that is the same, and is of the same cast if both can be.
    pub fn put(&mut self, f: Flying) -> Result<(), NoMemory>
        requires id { (1 ≤ f.id) × (f.id < self.old.next_copy) }
        requires last { AreBefore f.id self.old.flying }
        requires receiver { f.to < 256 }
        requires room { self.old.room ≡ 0 }
        ensures ok { OnOk result (self.new ≡ with_flight self.old f) }
        ensures refused { OnErr result (self.new ≡ self.old) }
    {
        let more = if_data(f.bytes.as_slice(), 1);
        self.least = gather(&mut self.casts, self.reserve.alloc(), self.least, f)?;
        self.count += 1;
        self.of_data += more;
        Ok(())
    }

    /// Makes room for this many more copies, each of at most this many bytes. If it is there, as
    /// for nine of ten casts, only the rooms are looked at: there is a slot for each cast then.
    #[inline(always)]
    pub fn make_room(&mut self, copies: usize, bytes: usize) -> Result<(), NoMemory>
        requires few { copies ≤ MOST_NODES }
        requires next { self.old.next_copy + MOST_NODES < 2 ^ 64 }
        ensures same { self.new ≡ record self.old { room = self.new.room; most = self.new.most } }
        ensures ok { OnOk result ((copies ≤ self.new.room) × (bytes ≤ self.new.most)) }
        ensures exact { OnOk result (self.new ≡ with_room self.old copies bytes) }
        ensures there { copies ≤ self.old.room → bytes ≤ self.old.most
            → IsOk result × (self.new ≡ self.old) }
        ensures refused { OnErr result (self.new ≡ self.old) }
    {
        if self.reserve.has(copies, bytes) {
            return Ok(());
        }
        self.make_more_room(copies, bytes)
    }

    // `make_room`, when rooms may be missing. It is a call of its own: inlined, the memory of its
    // locals would be cleared at each turn.
    #[cold]
    #[inline(never)]
    fn make_more_room(&mut self, copies: usize, bytes: usize) -> Result<(), NoMemory>
        ensures same { self.new ≡ record self.old { room = self.new.room; most = self.new.most } }
        ensures ok { OnOk result ((copies ≤ self.new.room) × (bytes ≤ self.new.most)) }
        ensures exact { OnOk result (self.new ≡ with_room self.old copies bytes) }
        ensures refused { OnErr result (self.new ≡ self.old) }
    {
        self.casts.reserve(copies)?;
        self.reserve.make(copies, bytes)
    }
}
