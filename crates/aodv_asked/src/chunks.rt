//! Many intervals, in chunks: an insertion moves the intervals of one chunk only.
ghost use Rattle.std.specs.Prelude.{◌≡◌, ◌<◌, ◌≤◌, ◌+◌, ◌++◌, ◌∷◌, ℕ, [], length, nat_lt, insert, remove, slice_set, vec_len, vec_capacity, IfOk, OnOk, IsOk, OnErr};
ghost use Rattle.aodv_asked.specs.Intervals.{AreApart};
ghost use Rattle.aodv_asked.specs.Insertions.{interval_at};
ghost use Rattle.aodv_asked.specs.Spots.{RoomyIntervals, position_of, IsThere, IsFirstFrom, IsBehindSpot, IsLastSpot, last_in, total};

use crate::interval::{Interval, Spot, count_before, count_on};
use mesh_base::NoMemory;
use std::alloc::Global;
use std::marker::Model;
use std::mem;

/// The least number of intervals that a chunk has room for.
pub(crate) const CHUNK: usize = 256;

/// The intervals, in chunks none of which is empty. While there is room for one more interval,
/// there are a spare empty chunk and a reserved slot for it among the others, so that an interval
/// whose chunk is full takes no memory.
#[derive(Drop)]
pub(crate) struct Chunks {
    chunks: Vec<Vec<Interval>>,
    spare: Option<Vec<Interval>>,
}

impl Model for Chunks {
    ghost use Rattle.std.specs.Prelude.{◌≡◌, ◌<◌, ◌≤◌, ◌&&◌, if◌then◌else◌, nat_lt, is_some, IfSome, length, map, [], vec_len, vec_capacity};
    ghost use Rattle.std.specs.List.{flat_map, All};
    ghost use Rattle.aodv_asked.specs.Spots.{RoomyIntervals};
    ghost use Rattle.aodv_asked.specs.declared.chunks.TheConstants.{CHUNK};

    ghost Value = { RoomyIntervals };

    ghost view = { λ a. record {
      items = flat_map (λ c. c.items) a.chunks.items;
      room = if is_some a.spare && nat_lt (vec_len a.chunks) (vec_capacity a.chunks)
          then 1 else 0;
      lengths = map (λ c. length c.items) a.chunks.items;
    } };

    ghost invariant = { λ a. All (λ c. 0 < length c.items) a.chunks.items
        × IfSome a.spare (λ c. (c.items ≡ []) × (CHUNK ≤ vec_capacity c)) };
}

// Whether the last interval of a chunk ends before `from`.
fn ends_before(chunk: &Vec<Interval>, from: u64) -> bool
    ensures { result ≡ nat_lt (last_in chunk.now.items) from }
{
    let len = chunk.len();
    if len == 0 {
        return 0 < from;
    }
    u64::from(chunk[len - 1].last) < from
}

// Inserts an interval at an offset of a chunk that has room.
fn put_at(chunk: &mut Vec<Interval>, offset: usize, v: Interval)
    requires offset { offset ≤ vec_len chunk.old }
    requires room { vec_len chunk.old < vec_capacity chunk.old }
    ensures { chunk.new.items ≡ insert chunk.old.items offset v }
{
    match chunk.insert(offset, v) {
        Ok(()) => {}
        Err(_) => unreachable!(),
    }
}

// Inserts an interval into a full chunk. The chunk's upper half, or CHUNK / 2 intervals if that is
// fewer, moves into the spare chunk, which is returned.
fn put_in_halves(
    chunk: &mut Vec<Interval>,
    mut spare: Vec<Interval>,
    offset: usize,
    v: Interval,
) -> Vec<Interval>
    requires offset { offset < length chunk.old.items }
    requires empty { spare.items ≡ [] }
    requires room { CHUNK ≤ vec_capacity spare }
    ensures items { chunk.new.items ++ result.items ≡ insert chunk.old.items offset v }
    ensures lower { 0 < length chunk.new.items }
    ensures upper { 0 < length result.items }
{
    let len = chunk.len();
    let middle = len - (len - len / 2).min(CHUNK / 2);
    match spare.extend_from_slice(&chunk.as_slice()[middle..]) {
        Ok(()) => {}
        Err(_) => unreachable!(),
    }
    chunk.truncate(middle);
    if offset <= middle {
        put_at(chunk, offset, v);
    } else {
        put_at(&mut spare, offset - middle, v);
    }
    spare
}

impl Chunks {
    /// The intervals of a full list as the first chunk, and room for one more. They leave the list
    /// only if there is enough memory.
    pub(crate) fn of_full(alloc: Global, few: &mut Vec<Interval>) -> Result<Box<Chunks>, NoMemory>
        requires { 0 < length few.old.items }
        ensures items { IfOk result (λ b. b.value.items ≡ few.old.items) }
        ensures room { IfOk result (λ b. b.value.room ≡ 1) }
        ensures refused { OnErr result (few.new ≡ few.old) }
    {
        let none = Chunks {
            chunks: Vec::new(alloc),
            spare: None,
        };
        let mut boxed = Box::new(alloc, none)?;
        let mut chunks = Vec::with_capacity(alloc, 2)?;
        let spare = Some(Vec::with_capacity(alloc, CHUNK)?);
        chunks.push_reserved(mem::replace(few, Vec::new(alloc)));
        *boxed = Chunks { chunks, spare };
        Ok(boxed)
    }

    /// Whether there is room for one more interval.
    pub(crate) fn has_room(&self) -> bool
        ensures { result ≡ nat_lt 0 self.now.room }
    {
        self.spare.is_some() && self.chunks.len() < self.chunks.capacity()
    }

    /// Makes room for one more interval.
    pub(crate) fn make_room(&mut self, alloc: Global) -> Result<(), NoMemory>
        ensures items { self.new.items ≡ self.old.items }
        ensures here { OnOk result (0 < self.new.room) }
        ensures there { 0 < self.old.room → IsOk result }
        ensures still { 0 < self.old.room → self.new ≡ self.old }
        ensures keeps { self.old.room ≤ self.new.room }
        ensures refused { OnErr result (self.new ≡ self.old) }
    {
        if self.spare.is_none() {
            self.spare = Some(Vec::with_capacity(alloc, CHUNK)?);
        }
        if self.chunks.len() == self.chunks.capacity() {
            self.chunks.reserve(1)?;
        }
        Ok(())
    }

    /// The first interval that doesn't end before `from`: a binary search for its chunk, and one
    /// within the chunk.
    pub(crate) fn find(&self, from: u64) -> Option<Spot>
        requires { AreApart 0 self.now.items }
        ensures { IsFirstFrom self.now from result }
    {
        let chunk = self
            .chunks
            .as_slice()
            .partition_point(|c| ends_before(c, from));
        if chunk == self.chunks.len() {
            return None;
        }
        let offset = count_before(self.chunks[chunk].as_slice(), from);
        Some(Spot { chunk, offset })
    }

    /// The last interval.
    pub(crate) fn last(&self) -> Option<Spot>
        ensures { IsLastSpot self.now result }
    {
        let len = self.chunks.len();
        if len == 0 {
            return None;
        }
        Some(Spot {
            chunk: len - 1,
            offset: self.chunks[len - 1].len() - 1,
        })
    }

    /// The interval after the one at a spot.
    pub(crate) fn behind(&self, spot: Spot) -> Option<Spot>
        requires { IsThere self.now spot }
        ensures { IsBehindSpot self.now spot result }
    {
        let len = self.chunks[spot.chunk].len();
        if spot.offset + 1 < len {
            return Some(Spot {
                chunk: spot.chunk,
                offset: spot.offset + 1,
            });
        }
        if spot.chunk + 1 < self.chunks.len() {
            return Some(Spot {
                chunk: spot.chunk + 1,
                offset: 0,
            });
        }
        None
    }

    /// The interval at a spot.
    pub(crate) fn at(&self, spot: Spot) -> Interval
        requires { IsThere self.now spot }
        ensures { result ≡ interval_at self.now.items (position_of self.now spot) }
    {
        self.chunks[spot.chunk][spot.offset]
    }

    /// Replaces the interval at a spot.
    pub(crate) fn set(&mut self, spot: Spot, v: Interval)
        requires { IsThere self.old spot }
        ensures items { self.new.items ≡ slice_set self.old.items (position_of self.old spot) v }
        ensures room { self.new.room ≡ self.old.room }
        ensures lengths { self.new.lengths ≡ self.old.lengths }
    {
        let chunk = &mut self.chunks[spot.chunk];
        chunk[spot.offset] = v;
    }

    /// Inserts an interval before the one at a spot.
    pub(crate) fn insert(&mut self, spot: Spot, v: Interval)
        requires spot { IsThere self.old spot }
        requires room { 0 < self.old.room }
        ensures items { self.new.items ≡ insert self.old.items (position_of self.old spot) v }
        ensures room { self.old.room ≤ self.new.room + 1 }
    {
        let chunk = &mut self.chunks[spot.chunk];
        if chunk.len() < chunk.capacity() {
            put_at(chunk, spot.offset, v);
            return;
        }
        match self.spare.take() {
            Some(spare) => {
                let upper = put_in_halves(chunk, spare, spot.offset, v);
                match self.chunks.insert(spot.chunk + 1, upper) {
                    Ok(()) => {}
                    Err(_) => unreachable!(),
                }
            }
            None => unreachable!(),
        }
    }

    /// Adds an interval after the others.
    pub(crate) fn push(&mut self, v: Interval)
        requires { 0 < self.old.room }
        ensures items { self.new.items ≡ self.old.items ++ v ∷ [] }
        ensures room { self.old.room ≤ self.new.room + 1 }
    {
        let len = self.chunks.len();
        if len > 0 && self.chunks[len - 1].len() < self.chunks[len - 1].capacity() {
            self.chunks[len - 1].push_reserved(v);
            return;
        }
        match self.spare.take() {
            Some(mut spare) => {
                spare.push_reserved(v);
                self.chunks.push_reserved(spare);
            }
            None => unreachable!(),
        }
    }

    /// Removes the interval at a spot, and its chunk if it was the only one there.
    pub(crate) fn remove(&mut self, spot: Spot)
        requires { IsThere self.old spot }
        ensures items { self.new.items ≡ remove self.old.items (position_of self.old spot) }
        ensures room { self.old.room ≤ self.new.room }
    {
        let chunk = &mut self.chunks[spot.chunk];
        if chunk.len() == 1 {
            self.chunks.remove(spot.chunk);
            return;
        }
        chunk.remove(spot.offset);
    }

    /// How many ids there are.
    pub(crate) fn count(&self) -> u64
        requires { AreApart 0 self.now.items }
        ensures { result ≡ total self.now.items }
    {
        let mut count = 0;
        for chunk in &self.chunks {
            count = count_on(count, chunk.as_slice());
        }
        count
    }
}
