//! Lists of intervals of ids.
ghost use Rattle.std.specs.Prelude.{◌≡◌, ◌<◌, ◌≤◌, ◌+◌, ◌++◌, ◌∷◌, ℕ, [], length, nat_lt, insert, remove, slice_set, vec_len, vec_capacity, IfOk, IsOk, OnOk, OnErr};
ghost use Rattle.aodv_asked.specs.Intervals.{AreApart};
ghost use Rattle.aodv_asked.specs.Insertions.{interval_at};
ghost use Rattle.aodv_asked.specs.Spots.{RoomyIntervals, position_of, IsThere, IsFirstFrom, IsBehindSpot, IsLastSpot, total};

use crate::chunks::{CHUNK, Chunks};
use crate::interval::{Interval, Spot, count_before, count_on};
use mesh_base::NoMemory;
use std::alloc::Global;
use std::marker::Model;

/// How the intervals of a list are kept. One takes no memory, nor does room for it.
#[derive(Drop)]
enum Storage {
    Empty,
    One(Interval),
    // These are boxed, so that a list takes 16 bytes. A full list of `CHUNK` intervals or more goes
    // into chunks when room is made for another.
    Few(Box<Vec<Interval>>),
    Many(Box<Chunks>),
}

/// A list of intervals. Most lists are empty, and few have more than one.
#[derive(Drop)]
pub(crate) struct Intervals {
    storage: Storage,
}

impl Model for Intervals {
    ghost use Rattle.aodv_asked.specs.Spots.{RoomyIntervals};
    ghost use Rattle.aodv_asked.specs.Storage.{stored};

    ghost Value = { RoomyIntervals };

    ghost view = { λ a. stored a.storage };
}

// Memory for four intervals, with one in it.
fn memory_with(alloc: Global, first: Interval) -> Result<Box<Vec<Interval>>, NoMemory>
    ensures items { IfOk result (λ b. b.value.items ≡ first ∷ []) }
    ensures room { IfOk result (λ b. vec_len b.value < vec_capacity b.value) }
{
    let mut intervals = Vec::with_capacity(alloc, 4)?;
    intervals.push_reserved(first);
    Ok(Box::new(alloc, intervals)?)
}

impl Intervals {
    /// No intervals, and room for one.
    pub(crate) fn new() -> Intervals
        ensures items { result.items ≡ [] }
        ensures room { result.room ≡ 1 }
    {
        Intervals {
            storage: Storage::Empty,
        }
    }

    /// The first interval that doesn't end before `from`: a binary search.
    pub(crate) fn find(&self, from: u64) -> Option<Spot>
        requires { AreApart 0 self.now.items }
        ensures { IsFirstFrom self.now from result }
    {
        match &self.storage {
            Storage::Empty => None,
            Storage::One(only) => {
                if u64::from(only.last) < from {
                    return None;
                }
                Some(Spot {
                    chunk: 0,
                    offset: 0,
                })
            }
            Storage::Few(intervals) => {
                let offset = count_before(intervals.as_slice(), from);
                if offset == intervals.len() {
                    return None;
                }
                Some(Spot { chunk: 0, offset })
            }
            Storage::Many(chunks) => chunks.find(from),
        }
    }

    /// The last interval.
    pub(crate) fn last(&self) -> Option<Spot>
        ensures { IsLastSpot self.now result }
    {
        match &self.storage {
            Storage::Empty => None,
            Storage::One(_) => Some(Spot {
                chunk: 0,
                offset: 0,
            }),
            Storage::Few(intervals) => {
                let len = intervals.len();
                if len == 0 {
                    return None;
                }
                Some(Spot {
                    chunk: 0,
                    offset: len - 1,
                })
            }
            Storage::Many(chunks) => chunks.last(),
        }
    }

    /// The interval after the one at a spot.
    pub(crate) fn behind(&self, spot: Spot) -> Option<Spot>
        requires { IsThere self.now spot }
        ensures { IsBehindSpot self.now spot result }
    {
        match &self.storage {
            Storage::Empty | Storage::One(_) => None,
            Storage::Few(intervals) => {
                let offset = spot.offset + 1;
                if offset == intervals.len() {
                    return None;
                }
                Some(Spot { chunk: 0, offset })
            }
            Storage::Many(chunks) => chunks.behind(spot),
        }
    }

    /// The interval at a spot.
    pub(crate) fn at(&self, spot: Spot) -> Interval
        requires { IsThere self.now spot }
        ensures { result ≡ interval_at self.now.items (position_of self.now spot) }
    {
        match &self.storage {
            Storage::Empty => unreachable!(),
            Storage::One(only) => *only,
            Storage::Few(intervals) => intervals[spot.offset],
            Storage::Many(chunks) => chunks.at(spot),
        }
    }

    /// Whether there is room for one more interval.
    pub(crate) fn has_room(&self) -> bool
        ensures { result ≡ nat_lt 0 self.now.room }
    {
        match &self.storage {
            Storage::Empty => true,
            Storage::One(_) => false,
            Storage::Few(intervals) => intervals.len() < intervals.capacity(),
            Storage::Many(chunks) => chunks.has_room(),
        }
    }

    /// Makes room for one more interval. It isn't inlined: callers nearly always have room, and
    /// stay short this way.
    #[inline(never)]
    pub(crate) fn make_room(&mut self, alloc: Global) -> Result<(), NoMemory>
        ensures items { self.new.items ≡ self.old.items }
        ensures here { OnOk result (0 < self.new.room) }
        ensures there { 0 < self.old.room → IsOk result }
        ensures still { 0 < self.old.room → self.new ≡ self.old }
        ensures keeps { self.old.room ≤ self.new.room }
        ensures refused { OnErr result (self.new ≡ self.old) }
    {
        match &mut self.storage {
            Storage::Empty => {}
            Storage::One(only) => {
                let first = *only;
                self.storage = Storage::Few(memory_with(alloc, first)?);
            }
            Storage::Few(intervals) => {
                if intervals.len() < intervals.capacity() {
                    return Ok(());
                }
                if intervals.len() < CHUNK {
                    intervals.reserve(1)?;
                    return Ok(());
                }
                self.storage = Storage::Many(Chunks::of_full(alloc, intervals)?);
            }
            Storage::Many(chunks) => chunks.make_room(alloc)?,
        }
        Ok(())
    }

    /// Inserts an interval before the one at a spot.
    pub(crate) fn insert(&mut self, spot: Spot, v: Interval)
        requires spot { IsThere self.old spot }
        requires room { 0 < self.old.room }
        ensures items { self.new.items ≡ insert self.old.items (position_of self.old spot) v }
        ensures room { self.old.room ≤ self.new.room + 1 }
    {
        match &mut self.storage {
            Storage::Empty | Storage::One(_) => unreachable!(),
            Storage::Few(intervals) => match intervals.insert(spot.offset, v) {
                Ok(()) => {}
                Err(_) => unreachable!(),
            },
            Storage::Many(chunks) => chunks.insert(spot, v),
        }
    }

    /// Adds an interval after the others.
    pub(crate) fn push(&mut self, v: Interval)
        requires { 0 < self.old.room }
        ensures items { self.new.items ≡ self.old.items ++ v ∷ [] }
        ensures room { self.old.room ≤ self.new.room + 1 }
    {
        match &mut self.storage {
            Storage::Empty => self.storage = Storage::One(v),
            Storage::One(_) => unreachable!(),
            Storage::Few(intervals) => intervals.push_reserved(v),
            Storage::Many(chunks) => chunks.push(v),
        }
    }

    /// Replaces the interval at a spot.
    pub(crate) fn set(&mut self, spot: Spot, v: Interval)
        requires { IsThere self.old spot }
        ensures items { self.new.items ≡ slice_set self.old.items (position_of self.old spot) v }
        ensures room { self.new.room ≡ self.old.room }
        ensures lengths { self.new.lengths ≡ self.old.lengths }
    {
        match &mut self.storage {
            Storage::Empty => unreachable!(),
            Storage::One(only) => *only = v,
            Storage::Few(intervals) => intervals[spot.offset] = v,
            Storage::Many(chunks) => chunks.set(spot, v),
        }
    }

    /// Removes the interval at a spot.
    pub(crate) fn remove(&mut self, spot: Spot)
        requires { IsThere self.old spot }
        ensures items { self.new.items ≡ remove self.old.items (position_of self.old spot) }
        ensures room { self.old.room ≤ self.new.room }
    {
        match &mut self.storage {
            Storage::Empty => unreachable!(),
            Storage::One(_) => self.storage = Storage::Empty,
            Storage::Few(intervals) => {
                intervals.remove(spot.offset);
            }
            Storage::Many(chunks) => chunks.remove(spot),
        }
    }

    /// How many ids there are. It looks at each interval once, but not at each id.
    pub(crate) fn count(&self) -> u64
        requires { AreApart 0 self.now.items }
        ensures { result ≡ total self.now.items }
    {
        match &self.storage {
            Storage::Empty => 0,
            Storage::One(only) => only.count(),
            Storage::Few(intervals) => count_on(0, intervals.as_slice()),
            Storage::Many(chunks) => chunks.count(),
        }
    }
}
