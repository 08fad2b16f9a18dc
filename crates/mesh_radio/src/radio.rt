//! The radio of a mesh.
ghost use Rattle.std.specs.Prelude.{◌≡◌, ◌≢◌, ◌<◌, ◌≤◌, ◌+◌, ◌^◌, ◌∷◌, [], ℕ, true, false, not, length, slice_get, Some, OnOk, OnErr, IsOk, IfOk, IfSome, IfNone, option_map};
ghost use Rattle.std.specs.Bool.{OnTrue, OnFalse};
ghost use Rattle.std.specs.List.{AllByRecursion};
ghost use Rattle.std.specs.FinSet as sets;
ghost use Rattle.mesh_base.specs.Views.{flying_seen};
ghost use Rattle.mesh_model.specs.Worlds.{are_linked, linked_below};
ghost use Rattle.mesh_radio.specs.Copies.{held_seen, find_copy, from_id, data_in, AreBefore, AreNumbered, IsBetween, longest_packet};
ghost use Rattle.mesh_radio.specs.Radios.{opening, most_copies_at_first, with_more_room, with_link, without_link, with_copies, with_copy, with_double, without_copy, receivers, AreLinksOf};

use crate::adjacency::Adjacency;
use crate::copies::{Copies, Held};
use mesh_base::{Air, Flying, FlyingView, LONGEST_PACKET, MOST_NODES, NoMemory, NodeSet, Packet};
use std::alloc::Global;
use std::marker::Model;

/// The links between the nodes of a mesh, and the copies of packets in flight.
#[derive(Drop)]
pub struct Radio {
    links: Adjacency,
    ever: Adjacency,
    copies: Copies,
}

impl Model for Radio {
    ghost use Rattle.mesh_radio.specs.Radios.{RadioState};
    ghost use Rattle.mesh_radio.specs.Kept.{radio_code, radio_of, IsRadio};

    ghost Value = { RadioState };

    ghost coded = { radio_code };

    ghost view = { λ r. radio_of r.links r.ever r.copies };

    ghost invariant = { λ r. IsRadio r.links r.ever r.copies };
}

impl Radio {
    /// The radio of a mesh of this many nodes: no link, and no copy. The first copy gets id 1.
    pub fn new(alloc: Global, nodes: usize) -> Result<Radio, NoMemory>
        requires { nodes ≤ MOST_NODES }
        ensures { IfOk result (λ radio. radio ≡ opening nodes) }
    {
        Radio::restore(alloc, nodes, 1)
    }

    /// The radio of a mesh of this many nodes, to which copies can be put: no link, and no copy.
    /// The next copy that is cast gets this id.
    pub fn restore(alloc: Global, nodes: usize, next: u64) -> Result<Radio, NoMemory>
        requires few { nodes ≤ MOST_NODES }
        requires next { (1 ≤ next) × (next ≤ most_copies_at_first) }
        ensures { IfOk result (λ radio. radio ≡ record (opening nodes) { next_copy = next }) }
    {
        let links = Adjacency::new(alloc, nodes)?;
        let ever = Adjacency::new(alloc, nodes)?;
        let copies = Copies::new(alloc, next);
        Ok(Radio {
            links,
            ever,
            copies,
        })
    }

    /// Makes the link between a and b, both ways. False if it stood already.
    pub fn link(&mut self, a: usize, b: usize) -> bool
        requires first { a < self.old.size }
        requires second { b < self.old.size }
        requires differ { a ≢ b }
        ensures value { result ≡ not (are_linked self.old.links a b) }
        ensures linked { OnTrue result (self.new ≡ with_link self.old a b) }
        ensures same { OnFalse result (self.new ≡ self.old) }
    {
        if self.links.has(a, b) {
            return false;
        }
        self.links.join(a, b);
        self.ever.join(a, b);
        true
    }

    /// Cuts the link between a and b, both ways. False if it didn't stand.
    pub fn cut(&mut self, a: usize, b: usize) -> bool
        requires first { a < self.old.size }
        requires second { b < self.old.size }
        requires differ { a ≢ b }
        ensures value { result ≡ are_linked self.old.links a b }
        ensures parted { OnTrue result (self.new ≡ without_link self.old a b) }
        ensures same { OnFalse result (self.new ≡ self.old) }
    {
        if !self.links.has(a, b) {
            return false;
        }
        self.links.part(a, b);
        true
    }

    /// The nodes in range of a: those that are linked to it now.
    pub fn range(&self, a: usize) -> NodeSet
        requires { a < self.now.size }
        ensures value { result ≡ linked_below self.now.links a self.now.size }
        ensures below { (q : ℕ) → sets.contains result q ≡ true → q < self.now.size }
        ensures apart { sets.contains result a ≡ false }
    {
        self.links.neighbours(a)
    }

    /// Whether the link between a and b stands or once stood.
    pub fn stood(&self, a: usize, b: usize) -> bool
        requires first { a < self.now.size }
        requires second { b < self.now.size }
        ensures { result ≡ are_linked self.now.ever a b }
    {
        self.ever.has(a, b)
    }

    /// Makes room for this many more copies, each of at most this many bytes. Room that is there
    /// is kept.
    #[inline(always)]
    pub fn make_room(&mut self, copies: usize, bytes: usize) -> Result<(), NoMemory>
        requires few { copies ≤ MOST_NODES }
        requires next { self.old.next_copy + MOST_NODES < 2 ^ 64 }
        ensures same { self.new ≡ record self.old { room = self.new.room; most = self.new.most } }
        ensures ok { OnOk result ((copies ≤ self.new.room) × (bytes ≤ self.new.most)) }
        ensures exact { OnOk result (self.new ≡ with_more_room self.old copies bytes) }
        ensures there { copies ≤ self.old.room → bytes ≤ self.old.most
            → IsOk result × (self.new ≡ self.old) }
        ensures refused { OnErr result (self.new ≡ self.old) }
    {
        self.copies.make_room(copies, bytes)
    }

    /// A copy of the packet flies from this node to each member of the set.
    #[inline(always)]
    pub fn cast(&mut self, from: usize, packet: &Packet, to: &NodeSet) -> Air
        requires from { from < self.old.size }
        requires below { (q : ℕ) → sets.contains to.now q ≡ true → q < self.old.size }
        requires apart { sets.contains to.now from ≡ false }
        requires room { length (receivers self.old to.now) ≤ self.old.room }
        requires fits { length packet.now.items ≤ self.old.most }
        requires next { self.old.next_copy + MOST_NODES < 2 ^ 64 }
        ensures copies { self.new ≡ with_copies self.old from packet.now.items to.now }
        ensures few { self.new.next_copy ≤ self.old.next_copy + MOST_NODES }
        ensures air { result ≡ record { first = self.old.next_copy; to = to.now } }
    {
        let first = self.copies.next_id();
        self.copies.cast(from, packet.as_slice(), to);
        Air { first, to: *to }
    }

    /// Puts a copy into the radio, as it was in another one, with its packet. Its id is after those
    /// of the copies in flight, and below the next.
    pub fn put(&mut self, f: Flying) -> Result<(), NoMemory>
        requires id { (1 ≤ f.id) × (f.id < self.old.next_copy) }
        requires last { AreBefore f.id self.old.flying }
        requires between { IsBetween self.old.size f }
        requires short { length f.bytes ≤ LONGEST_PACKET }
        requires restored { self.old.room ≡ 0 }
        ensures ok { OnOk result (self.new ≡ with_copy self.old f) }
        ensures refused { OnErr result (self.new ≡ self.old) }
    {
        self.copies.put(f)
    }

    /// Doubles the copy of this id: a second copy like it flies, with the next id. The answer is
    /// the second copy's id and receiver. None if no copy in flight has this id.
    pub fn double(&mut self, id: u64) -> Option<(u64, usize)>
        requires room { (1 ≤ self.old.room) × (longest_packet ≤ self.old.most) }
        requires next { self.old.next_copy + MOST_NODES < 2 ^ 64 }
        ensures given { let copy = find_copy self.old.flying id in
            result ≡ option_map (λ c. (self.old.next_copy, c.to)) copy }
        ensures doubled { self.new ≡ with_double self.old (find_copy self.old.flying id) }
    {
        self.copies.double(id)
    }

    /// The receiver of the copy of this id. None if no copy in flight has it.
    #[inline(always)]
    pub fn receiver(&self, id: u64) -> Option<usize>
        ensures { result ≡ option_map (λ c. c.to) (find_copy self.now.flying id) }
    {
        self.copies.receiver(id)
    }

    /// Removes the copy of this id from the copies in flight, if it is one of them.
    #[inline(always)]
    pub fn remove(&mut self, id: u64)
        ensures { self.new ≡ without_copy self.old id }
    {
        self.copies.remove(id)
    }

    /// `remove` for a copy that `held` found, with its receiver. The hint affects only how long
    /// this takes: it is the index at which `held` found the copy.
    #[inline(always)]
    pub fn remove_found(&mut self, id: u64, to: usize, hint: usize)
        requires { option_map (λ c. c.to) (find_copy self.old.flying id) ≡ Some to }
        ensures { self.new ≡ without_copy self.old id }
    {
        self.copies.remove_found(id, to, hint)
    }

    /// Takes the copy of this id out of the radio, with its packet, for which no memory is needed.
    /// None if no copy in flight has it.
    pub fn take(&mut self, id: u64) -> Option<Flying>
        ensures taken { result ≡ find_copy self.old.flying id }
        ensures gone { self.new ≡ without_copy self.old id }
    {
        self.copies.take(id)
    }

    /// The copy of this id, which stays in flight. None if no copy in flight has it.
    #[inline(always)]
    pub fn find(&self, id: u64) -> Option<FlyingView<'_>>
        ensures { option_map flying_seen result ≡ find_copy self.now.flying id }
    {
        let held = self.copies.get(id)?;
        Some(FlyingView {
            id: held.id,
            from: held.from,
            to: held.to,
            bytes: held.bytes.as_slice(),
        })
    }

    /// What `find` returns, with the packet as it is kept.
    #[inline(always)]
    pub fn held(&self, id: u64) -> Option<Held<'_>>
        ensures { option_map held_seen result ≡ find_copy self.now.flying id }
    {
        self.copies.get(id)
    }

    /// How many copies are in flight.
    pub fn count(&self) -> usize
        ensures value { result ≡ length self.now.flying }
        ensures linked { AreLinksOf self.now.size self.now.links self.now.ever }
        ensures numbered { AreNumbered 1 self.now.flying self.now.next_copy }
        ensures between { AllByRecursion (IsBetween self.now.size) self.now.flying }
    {
        self.copies.count()
    }

    /// How many of the copies in flight are of data. No copy is looked at.
    pub fn data_count(&self) -> usize
        ensures { result ≡ data_in self.now.flying }
    {
        self.copies.data_count()
    }

    /// The copy in flight with the least id from this one on. To go over all copies, ask for each
    /// by the id after the last one's. The hint affects only how long this takes: begin with 0, and
    /// pass on what the last call left in it.
    pub fn next_from(&self, id: u64, hint: &mut usize) -> Option<FlyingView<'_>>
        ensures some { let copies = self.now.flying in
            IfSome result (λ f. from_id copies id ≡ flying_seen f ∷ from_id copies (f.id + 1)) }
        ensures within { let next = self.now.next_copy in
            let between = IsBetween self.now.size in
            IfSome result
            (λ f. (id ≤ f.id) × (f.id < next) × (next < 2 ^ 64) × between (flying_seen f)) }
        ensures none { IfNone result (from_id self.now.flying id ≡ []) }
    {
        self.copies.next_from(id, hint)
    }

    /// The copy in flight of this rank, counted from 0 by rising id. This goes over the copies
    /// before it: use `next_from` to go over all of them.
    pub fn at(&self, k: usize) -> FlyingView<'_>
        requires { k < length self.now.flying }
        ensures { slice_get self.now.flying k ≡ Some (flying_seen result) }
    {
        let mut id = 0;
        let mut hint = 0;
        let mut rank = 0;
        'ranks: loop {
            let Some(copy) = self.next_from(id, &mut hint) else {
                unreachable!();
            };
            if rank == k {
                return copy;
            }
            rank += 1;
            id = copy.id + 1;
        }
    }

    /// The id that the next copy gets.
    pub fn next_id(&self) -> u64
        ensures { result ≡ self.now.next_copy }
    {
        self.copies.next_id()
    }

    /// The least id of a copy in flight.
    pub fn first_id(&self) -> Option<u64>
        ensures { result ≡ option_map (λ c. c.id) (slice_get self.now.flying 0) }
    {
        self.copies.first_id()
    }
}
