//! Ids as rising intervals that neither overlap nor adjoin.
ghost use Rattle.std.specs.Prelude.{◌≡◌, ◌<◌, ◌≤◌, ◌+◌, ◌-◌, ◌⊎◌, ℕ, nat_lt, IsOk, OnOk, OnErr, IsTrue, length};
ghost use Rattle.std.specs.FinSet as sets;
ghost use Rattle.mesh_base.specs.Members.{IsLeastFrom, members_below};
ghost use Rattle.aodv_model.specs.Soundness.{AreBelow};
ghost use Rattle.aodv_asked.specs.Intervals.{AreApart, is_near_in, with_range};
ghost use Rattle.aodv_asked.specs.Insertions.{with_id, is_near_to};
ghost use Rattle.aodv_asked.specs.Spots.{IsFirstFrom};
ghost use Rattle.aodv_asked.specs.Tops.{with_interval, AreBefore, IsBehind};

use crate::interval::{Interval, Spot, narrowed};
use crate::intervals::Intervals;
use mesh_base::NoMemory;
use std::alloc::Global;
use std::marker::Model;

/// A set of ids. It takes no memory until room is made for a second interval.
#[derive(Drop)]
pub(crate) struct Ids {
    intervals: Intervals,
}

impl Model for Ids {
    ghost use Rattle.aodv_asked.specs.Intervals.{RoomyIds, ids_code};

    ghost Value = { RoomyIds };

    ghost coded = { ids_code };

    ghost use Rattle.aodv_asked.specs.Intervals.{ids_in, AreApart};

    ghost view = { λ a. record {
      ids = ids_in a.intervals.items;
      room = a.intervals.room;
    } };

    ghost invariant = { λ a. AreApart 0 a.intervals.items };
}

// The first interval that ends right before the id, at it or after it.
fn find_near(intervals: &Intervals, id: u32) -> Option<Spot>
    requires { AreApart 0 intervals.now.items }
    ensures { IsFirstFrom intervals.now (id - 1) result }
{
    intervals.find(u64::from(id.saturating_sub(1)))
}

// Adds an id to the intervals.
fn put(intervals: &mut Intervals, id: u32)
    requires apart { AreApart 0 intervals.old.items }
    requires room { (0 < intervals.old.room) ⊎ IsTrue (is_near_to intervals.old.items id) }
    ensures items { intervals.new.items ≡ with_id intervals.old.items id }
    ensures room { intervals.old.room ≤ intervals.new.room + 1 }
{
    match find_near(intervals, id) {
        Some(spot) => put_from(intervals, spot, id),
        None => intervals.push(Interval {
            first: id,
            last: id,
        }),
    }
}

// Adds an id to the intervals. The spot is that of the first interval that ends right before the
// id, at it or after it.
fn put_from(intervals: &mut Intervals, spot: Spot, id: u32)
    requires apart { AreApart 0 intervals.old.items }
    requires near { IsFirstFrom intervals.old (id - 1) (Some spot) }
    requires room { (0 < intervals.old.room) ⊎ IsTrue (is_near_to intervals.old.items id) }
    ensures items { intervals.new.items ≡ with_id intervals.old.items id }
    ensures room { intervals.old.room ≤ intervals.new.room + 1 }
{
    let here = intervals.at(spot);
    let next = u64::from(id) + 1;
    if next < u64::from(here.first) {
        let first = id;
        intervals.insert(spot, Interval { first, last: id });
        return;
    }
    if next == u64::from(here.first) {
        intervals.set(spot, Interval { first: id, ..here });
        return;
    }
    if id <= here.last {
        return;
    }
    let longer = Interval { last: id, ..here };
    match intervals.behind(spot) {
        Some(behind) => {
            let after = intervals.at(behind);
            if next == u64::from(after.first) {
                let last = after.last;
                intervals.set(spot, Interval { last, ..here });
                intervals.remove(behind);
            } else {
                intervals.set(spot, longer);
            }
        }
        None => intervals.set(spot, longer),
    }
}

impl Ids {
    /// No ids, and room for one.
    pub(crate) fn new() -> Ids
        ensures ids { result.ids ≡ sets.empty }
        ensures room { result.room ≡ 1 }
    {
        Ids {
            intervals: Intervals::new(),
        }
    }

    /// Whether there is room for one more id.
    pub(crate) fn has_room(&self) -> bool
        ensures { result ≡ nat_lt 0 self.now.room }
    {
        self.intervals.has_room()
    }

    /// Makes room for one more id.
    pub(crate) fn make_room(&mut self, alloc: Global) -> Result<(), NoMemory>
        ensures ids { self.new.ids ≡ self.old.ids }
        ensures here { OnOk result (0 < self.new.room) }
        ensures there { 0 < self.old.room → IsOk result }
        ensures still { 0 < self.old.room → self.new ≡ self.old }
        ensures keeps { self.old.room ≤ self.new.room }
        ensures refused { OnErr result (self.new ≡ self.old) }
    {
        self.intervals.make_room(alloc)
    }

    /// Whether the id is there.
    pub(crate) fn has(&self, id: u32) -> bool
        ensures { result ≡ sets.contains self.now.ids id }
    {
        match self.intervals.find(u64::from(id)) {
            Some(spot) => self.intervals.at(spot).first <= id,
            None => false,
        }
    }

    /// Adds an id. It takes no memory.
    fn insert(&mut self, id: u32)
        requires { (0 < self.old.room) ⊎ IsTrue (is_near_in self.old.ids id) }
        ensures ids { self.new.ids ≡ sets.insert self.old.ids id }
        ensures room { self.old.room ≤ self.new.room + 1 }
    {
        put(&mut self.intervals, id);
    }

    /// Adds the ids of an interval that comes after the others and adjoins none. It takes no
    /// memory.
    fn push(&mut self, top: Interval)
        requires room { 0 < self.old.room }
        requires some { top.first ≤ top.last }
        requires behind { IsBehind self.old.ids top }
        ensures ids { self.new.ids ≡ with_interval self.old.ids top }
        ensures room { self.old.room ≤ self.new.room + 1 }
    {
        self.intervals.push(top);
    }

    /// Removes the ids that lead up to `id`, one after another, and returns the first of them, or
    /// `id` if there are none. All ids are below `id`.
    fn take_up_to(&mut self, id: u32) -> u32
        requires { AreBelow id self.old.ids }
        ensures within { result ≤ id }
        ensures ids { with_range self.new.ids result (id - result) ≡ self.old.ids }
        ensures apart { AreBefore self.new.ids result }
        ensures room { self.old.room ≤ self.new.room }
    {
        match self.intervals.last() {
            Some(spot) => {
                let last = self.intervals.at(spot);
                if last.last + 1 < id {
                    return id;
                }
                self.intervals.remove(spot);
                last.first
            }
            None => id,
        }
    }

    /// Adds an id to the ids here and those of `top`, the interval after them. The id is below that
    /// interval, or above it and not next to it. The interval that is returned then comes after the
    /// ids here. It takes no memory.
    pub(crate) fn insert_beside(&mut self, top: Interval, id: u32) -> Interval
        requires some { top.first ≤ top.last }
        requires behind { IsBehind self.old.ids top }
        requires apart { (id < top.first) ⊎ (top.last + 1 < id) }
        requires room { (0 < self.old.room)
            ⊎ IsTrue (is_near_in (with_interval self.old.ids top) id) }
        ensures ids { with_interval self.new.ids result
            ≡ sets.insert (with_interval self.old.ids top) id }
        ensures behind { IsBehind self.new.ids result }
        ensures some { result.first ≤ result.last }
        ensures room { self.old.room ≤ self.new.room + 1 }
    {
        if top.last < id {
            self.push(top);
            return Interval {
                first: id,
                last: id,
            };
        }
        if id + 1 < top.first {
            self.insert(id);
            return top;
        }
        Interval {
            first: self.take_up_to(id),
            last: top.last,
        }
    }

    /// How many ids there are. (The contract says how many of them are below any number that is
    /// above all.) It looks at each interval once, but not at each id.
    pub(crate) fn count(&self) -> u64
        ensures { (n : ℕ) → AreBelow n self.now.ids
            → result ≡ length (members_below n self.now.ids) }
    {
        self.intervals.count()
    }

    /// The least id that is not below `from`.
    pub(crate) fn least_from(&self, from: u64) -> Option<u32>
        ensures { IsLeastFrom self.now.ids from result }
    {
        let spot = self.intervals.find(from)?;
        let here = self.intervals.at(spot);
        if from <= u64::from(here.first) {
            return Some(here.first);
        }
        Some(narrowed(from, here.last))
    }
}
