//! Data that wait for a route.
ghost use Rattle.std.specs.Prelude.{◌≡◌, ◌<◌, ◌≤◌, ◌-◌, ◌↔◌, if◌then◌else◌, ℕ, length, slice_index, slice_set, slice_get, IfOk, IfSome, IsSome, OnOk, OnErr, IsTrue, Some, IsOk};
ghost use Rattle.std.specs.FinMap as maps;
ghost use Rattle.std.specs.FinSet as sets;
ghost use Rattle.aodv_model.specs.Cores.{add, drop, unset, set, in_qD, bodies_in, needs_in};
ghost use Rattle.aodv_model.specs.Handlers.{first_body};
ghost use Rattle.aodv_model.specs.Soundness.{IsDatum, IsStoreInMesh};

use crate::row::Row;
use mesh_base::{Bytes, MOST_NODES, NoMemory, NodeSet};
use std::alloc::Global;
use std::marker::Model;

/// The data that wait for each destination, and which destinations need a route request.
#[derive(Drop)]
pub struct Waiting {
    // The data for each destination.
    rows: Vec<Row>,
    alloc: Global,
    with_data: NodeSet,
    // Those of `with_data` that need a request.
    needing: NodeSet,
}

impl Model for Waiting {
    ghost use Rattle.std.specs.Prelude.{map};
    ghost use Rattle.aodv_waiting.specs.Seen.{RoomyStore, store_code};

    ghost Value = { RoomyStore };

    ghost coded = { store_code };

    ghost use Rattle.aodv_waiting.specs.Rows.{store_of, bodies_in_row, room_in_row, AreRows};

    ghost view = { λ a. record {
      store = store_of a.needing (map bodies_in_row a.rows.items);
      rooms = map room_in_row a.rows.items;
    } };

    ghost invariant = { λ a. AreRows (map bodies_in_row a.rows.items) a.with_data a.needing };
}

// Marks d as in need of a request, if it had no data before.
fn mark_if_new(needing: &mut NodeSet, with_data: &NodeSet, d: usize)
    requires { d < 256 }
    ensures { needing.new
        ≡ (if sets.contains with_data.now d then needing.old else sets.insert needing.old d) }
{
    if !with_data.has(d) {
        needing.add(d);
    }
}

impl Waiting {
    /// A store without data, for a mesh with this many nodes.
    pub fn new(alloc: Global, nodes: usize) -> Result<Waiting, NoMemory>
        requires { nodes ≤ MOST_NODES }
        ensures store { IfOk result (λ waiting. waiting.store ≡ maps.empty) }
        ensures nodes { IfOk result (λ waiting. length waiting.rooms ≡ nodes) }
    {
        let mut rows = Vec::with_capacity(alloc, nodes)?;
        for _ in 0..nodes {
            rows.push(Row::new())?;
        }
        Ok(Waiting {
            rows,
            alloc,
            with_data: NodeSet::new(),
            needing: NodeSet::new(),
        })
    }

    /// Makes room for one more datum for d. It asks for memory only if there is no room yet.
    pub fn make_room(&mut self, d: usize) -> Result<(), NoMemory>
        requires { d < length self.old.rooms }
        ensures store { self.new.store ≡ self.old.store }
        ensures here { OnOk result (0 < slice_index self.new.rooms d) }
        ensures there { 0 < slice_index self.old.rooms d → IsOk result }
        ensures still { 0 < slice_index self.old.rooms d → self.new ≡ self.old }
        ensures nodes { length self.new.rooms ≡ length self.old.rooms }
        ensures keeps { (q : ℕ) → slice_index self.old.rooms q ≤ slice_index self.new.rooms q }
        ensures refused { OnErr result (self.new ≡ self.old) }
    {
        let row = &mut self.rows[d];
        row.make_room(self.alloc)
    }

    /// The datum waits for d, after those that already do. A destination that had none needs a
    /// request. The call uses up the room for one datum.
    pub fn add(&mut self, d: usize, body: Bytes)
        requires room { 0 < slice_index self.old.rooms d }
        requires datum { IsDatum body }
        ensures store { self.new.store ≡ add self.old.store d body }
        ensures rooms { let room = slice_index self.old.rooms d in
            self.new.rooms ≡ slice_set self.old.rooms d (room - 1) }
    {
        let row = &mut self.rows[d];
        row.push(body);
        mark_if_new(&mut self.needing, &self.with_data, d);
        self.with_data.add(d);
    }

    /// Whether there are data for d.
    pub fn has(&self, d: usize) -> bool
        ensures { result ≡ in_qD self.now.store d }
    {
        self.with_data.has(d)
    }

    /// The first datum for d, if there is one.
    pub fn first(&self, d: usize) -> Option<&[u8]>
        requires { d < length self.now.rooms }
        ensures some { IsSome result ↔ IsTrue (in_qD self.now.store d) }
        ensures value { let bodies = bodies_in (maps.get self.now.store d) in
            IfSome result (λ body. body.now ≡ first_body bodies) }
        ensures datum { IfSome result (λ body. IsDatum body.now) }
    {
        match self.rows[d].get(0) {
            Some(body) => Some(body.as_slice()),
            None => None,
        }
    }

    /// Removes the first datum for d.
    pub fn drop_first(&mut self, d: usize)
        requires { IsTrue (in_qD self.old.store d) }
        ensures store { self.new.store ≡ drop self.old.store d }
        ensures nodes { length self.new.rooms ≡ length self.old.rooms }
        ensures keeps { (q : ℕ) → slice_index self.old.rooms q ≤ slice_index self.new.rooms q }
    {
        let row = &mut self.rows[d];
        if row.pop() {
            self.with_data.remove(d);
            self.needing.remove(d);
        }
    }

    /// Whether there are data for d and a request for it is still to be made.
    pub fn needs_request(&self, d: usize) -> bool
        ensures { result ≡ needs_in (maps.get self.now.store d) }
    {
        self.needing.has(d)
    }

    /// Marks those of these destinations that have data as in need of a request. It looks at none
    /// of them.
    pub fn set_req(&mut self, dests: &NodeSet)
        ensures store { self.new.store ≡ set self.old.store dests.now }
        ensures rooms { self.new.rooms ≡ self.old.rooms }
    {
        let mut waiting = *dests;
        waiting.meet(&self.with_data);
        self.needing.join(&waiting);
    }

    /// Marks d as in no need of a request for now.
    pub fn unset_req(&mut self, d: usize)
        requires { d < length self.old.rooms }
        ensures store { self.new.store ≡ unset self.old.store d }
        ensures rooms { self.new.rooms ≡ self.old.rooms }
    {
        self.needing.remove(d);
    }

    /// The destinations that have data (AWN's qD). It looks at none of them.
    pub fn dests(&self) -> NodeSet
        ensures value { (d : ℕ) → sets.contains result d ≡ in_qD self.now.store d }
        ensures in_mesh { IsStoreInMesh (length self.now.rooms) self.now.store }
    {
        self.with_data
    }

    /// The destinations that need a request. It looks at none of them.
    pub fn needing(&self) -> NodeSet
        ensures { (d : ℕ) → sets.contains result d ≡ needs_in (maps.get self.now.store d) }
    {
        self.needing
    }

    /// The number of data for d.
    pub fn count(&self, d: usize) -> usize
        requires { d < length self.now.rooms }
        ensures { result ≡ length (bodies_in (maps.get self.now.store d)) }
    {
        self.rows[d].len()
    }

    /// The k-th datum for d from the front, counted from 0.
    pub fn datum(&self, d: usize, k: usize) -> &[u8]
        requires { k < length (bodies_in (maps.get self.now.store d)) }
        ensures value { slice_get (bodies_in (maps.get self.now.store d)) k ≡ Some result.now }
        ensures datum { IsDatum result.now }
    {
        match self.rows[d].get(k) {
            Some(body) => body.as_slice(),
            None => unreachable!(),
        }
    }
}
