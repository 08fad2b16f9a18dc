//! Casts by the ids of their first copies: how they are searched, and how they change.
ghost use Rattle.std.specs.Prelude.{◌≡◌, ℕ, ◌<◌, ◌≤◌, ◌+◌, ◌-◌, ◌^◌, ◌++◌, ◌∷◌, [], length, slice_get, option_map, Some, IfSome, IfNone};
ghost use Rattle.std.specs.Map.{keys_of};
ghost use Rattle.indexmap.specs.IndexMap.{spare, values, with_value_at};
ghost use Rattle.mesh_base.specs.Members.{member_list, rank};
ghost use Rattle.mesh_radio.specs.declared.casts.Cast.{Cast};
ghost use Rattle.mesh_radio.specs.Casts.{Entry, AreCasts, AreLeft, IsAlone, IsFound, IsNext, IsSplit, IsFrom, AreGone, IsLeast, IsLeastOf, NoneUpTo, HasNone, HasNoneFrom, copy_of, entry_of, size, without_to};

use crate::hashes::NumberHasher;
use crate::positions::position_near;
use crate::reserve::Reserve;
use indexmap::IndexMap;
use mesh_base::{Bytes, NodeSet};
use std::alloc::Global;
use std::hash::BuildHasherDefault;

/// A packet that was cast: its sender, its receivers (`to`), and those of them whose copies are
/// still in flight (`left`). Its copies have the ids from the cast's first on, by rising receiver.
#[derive(Drop)]
pub struct Cast {
    pub to: NodeSet,
    pub left: NodeSet,
    pub from: usize,
    pub bytes: Bytes,
}

/// A packet of at most this many bytes is copied without taking memory. Of a longer one each cast
/// makes one copy, so that the copy can be taken out with the packet itself.
pub const LONGEST_INLINE: usize = 32;

/// Casts by the ids of their first copies, which rise.
pub type Casts = IndexMap<u64, Cast, BuildHasherDefault<NumberHasher>>;

/// Where a copy is kept: the index of its cast, and its receiver.
#[derive(Clone, Copy)]
pub struct Spot {
    pub index: usize,
    pub to: usize,
}

/// The least copy in flight: its id, and where it is kept.
#[derive(Clone, Copy)]
pub struct Least {
    pub id: u64,
    pub spot: Spot,
}

// How many members are at most i, given that `below` members are below i.
#[tactic(auto, using(crate::proofs::Receivers::rank_after_member, crate::proofs::Receivers::rank_after_other))]
fn count_through(to: &NodeSet, i: usize, below: usize) -> usize
    requires below { below ≡ rank to.now i }
    requires few { below ≤ 256 }
    ensures { result ≡ rank to.now (i + 1) }
{
    if to.has(i) { below + 1 } else { below }
}

// The member of this rank. No search is needed if all numbers below the member are members too, or
// all but one, as in a mesh whose nodes are all linked.
#[tactic(auto, using(crate::proofs::Receivers::member_of_rank))]
fn receiver(to: &NodeSet, rank: usize) -> Option<usize>
    ensures value { result ≡ slice_get (member_list to.now) rank }
    ensures below { IfSome result (λ m. m < 256) }
{
    if rank < 255 {
        let below = to.count_below(rank);
        if to.has(rank) && below == rank {
            return Some(rank);
        }
        if to.has(rank + 1) && count_through(to, rank, below) == rank {
            return Some(rank + 1);
        }
    }
    to.nth(rank)
}

// Where the copy of this id is kept: the index of its cast is found by its first id, if need be by
// binary search, and its receiver by its rank. The hint affects only how long this takes.
fn find_near(casts: &Casts, id: u64, hint: usize) -> Option<Spot>
    requires { (next : ℕ) × AreCasts casts.now.entries next }
    ensures some { IfSome result (λ s. IsFound casts.now.entries id s.index s.to) }
    ensures below { IfSome result (λ s. s.to < 256) }
    ensures none { IfNone result (HasNone casts.now.entries id) }
{
    let after = position_near(casts.keys().as_slice(), id, hint);
    if after == 0 {
        return None;
    }
    let (first, cast) = casts.get_index(after - 1)?;
    let to = receiver(&cast.to, (id - *first) as usize)?;
    if cast.left.has(to) {
        return Some(Spot {
            index: after - 1,
            to,
        });
    }
    None
}

/// Where the copy of this id is kept. The least copy is found without a search.
#[inline(always)]
pub fn find(casts: &Casts, least: &Option<Least>, id: u64) -> Option<Spot>
    requires casts { (next : ℕ) × AreCasts casts.now.entries next }
    requires least { IsLeastOf casts.now.entries least.now }
    ensures some { IfSome result (λ s. IsFound casts.now.entries id s.index s.to) }
    ensures below { IfSome result (λ s. s.to < 256) }
    ensures none { IfNone result (HasNone casts.now.entries id) }
{
    let Some(least) = least else {
        return None;
    };
    if id == least.id {
        return Some(least.spot);
    }
    // Returned as it is, the result of the call would go through memory in each case.
    let spot = find_near(casts, id, least.spot.index)?;
    Some(spot)
}

// The index of the cast of this id. The hint affects only how long this takes. It is a call of its
// own, since the least copy, which most deliveries take, doesn't need it.
#[inline(never)]
fn cast_index(casts: &Casts, id: u64, hint: usize) -> usize
    requires { (next : ℕ) × AreCasts casts.now.entries next }
    ensures { (e : Entry) → entry_of casts.now.entries id ≡ Some e →
        slice_get casts.now.entries result ≡ Some e }
{
    let after = position_near(casts.keys().as_slice(), id, hint);
    if after == 0 { 0 } else { after - 1 }
}

/// Where the copy of this id is kept, which is known to go to this receiver. The hint affects only
/// how long this takes.
#[inline(always)]
pub fn find_again(
    casts: &Casts,
    least: &Option<Least>,
    id: u64,
    to: usize,
    hint: usize,
) -> Option<Spot>
    requires casts { (next : ℕ) × AreCasts casts.now.entries next }
    requires least { IsLeastOf casts.now.entries least.now }
    requires to { let copy = copy_of (entry_of casts.now.entries id) id in
        option_map (λ c. c.to) copy ≡ Some to }
    ensures some { IfSome result (λ s. IsFound casts.now.entries id s.index s.to) }
    ensures below { IfSome result (λ s. s.to < 256) }
    ensures none { IfNone result (HasNone casts.now.entries id) }
{
    let Some(least) = least else {
        return None;
    };
    if id == least.id {
        return Some(least.spot);
    }
    let index = cast_index(casts, id, hint);
    Some(Spot { index, to })
}

// The receiver of the first copy in flight, from this id on, of the cast right before index
// `after`. That cast is the last one whose first id is no later than this id.
fn rest_of(casts: &Casts, after: usize, id: u64) -> Option<usize>
    requires casts { (next : ℕ) × AreCasts casts.now.entries next }
    requires split { IsSplit (keys_of casts.now.entries) id after }
    ensures some { IfSome result (λ to. (0 < after) × IsNext casts.now.entries id (after - 1) to) }
    ensures none { IfNone result (NoneUpTo casts.now.entries id after) }
{
    if after == 0 {
        return None;
    }
    let (first, cast) = casts.get_index(after - 1)?;
    let start = cast.to.nth((id - *first) as usize)?;
    cast.left.next_from(start)
}

// Where the first copy in flight of the casts from this index on is kept.
fn walk(casts: &Casts, index: usize, id: u64) -> Option<Spot>
    requires casts { (next : ℕ) × AreCasts casts.now.entries next }
    requires none { NoneUpTo casts.now.entries id index }
    requires from { IsFrom casts.now.entries index id }
    ensures some { IfSome result (λ s. IsNext casts.now.entries id s.index s.to) }
    ensures none { IfNone result (HasNoneFrom casts.now.entries id) }
{
    let len = casts.len();
    let mut index = index;
    'casts: while index < len {
        let (_, cast) = casts.get_index(index)?;
        if let Some(to) = cast.left.next_from(0) {
            return Some(Spot { index, to });
        }
        index += 1;
    }
    None
}

/// Where the first copy in flight from this id on is kept. The hint affects only how long this
/// takes.
pub fn find_next(casts: &Casts, id: u64, hint: usize) -> Option<Spot>
    requires { (next : ℕ) × AreCasts casts.now.entries next }
    ensures some { IfSome result (λ s. IsNext casts.now.entries id s.index s.to) }
    ensures none { IfNone result (HasNoneFrom casts.now.entries id) }
{
    let index = position_near(casts.keys().as_slice(), id, hint);
    if let Some(to) = rest_of(casts, index, id) {
        return Some(Spot {
            index: index - 1,
            to,
        });
    }
    walk(casts, index, id)
}

/// The least copy in flight: the first `gone` casts are known to have none.
pub fn least_from(casts: &Casts, gone: usize) -> Option<Least>
    requires casts { (next : ℕ) × AreCasts casts.now.entries next }
    requires gone { AreGone casts.now.entries gone }
    ensures { IsLeastOf casts.now.entries result }
{
    let spot = walk(casts, gone, 0)?;
    let (first, cast) = casts.get_index(spot.index)?;
    Some(Least {
        id: *first + cast.to.count_below(spot.to) as u64,
        spot,
    })
}

// The least copy: this one or, if none was known, the least after the first `gone` casts.
fn least_or(casts: &Casts, least: Option<Least>, gone: usize) -> Option<Least>
    requires casts { (next : ℕ) × AreCasts casts.now.entries next }
    requires least { IfSome least (λ l. IsLeast casts.now.entries l.spot.index l.id l.spot.to) }
    requires gone { IfNone least (AreGone casts.now.entries gone) }
    ensures { IsLeastOf casts.now.entries result }
{
    match least {
        Some(least) => Some(least),
        None => least_from(casts, gone),
    }
}

/// Adds a cast, at the next id: its copies fly. The answer is the least copy after that; `least` is
/// the least copy before.
#[inline(always)]
pub fn launch(casts: &mut Casts, least: Option<Least>, next: u64, cast: Cast) -> Option<Least>
    requires casts { AreCasts casts.old.entries next }
    requires least { IsLeastOf casts.old.entries least }
    requires room { 0 < spare casts.old }
    requires some { 0 < size cast }
    requires left { AreLeft cast }
    requires alone { IsAlone cast }
    requires few { next + size cast < 2 ^ 64 }
    ensures entries { casts.new.entries ≡ casts.old.entries ++ (next, cast) ∷ [] }
    ensures casts { AreCasts casts.new.entries (next + size cast) }
    ensures least { IsLeastOf casts.new.entries result }
    ensures spare { spare casts.old ≤ spare casts.new + 1 }
{
    let index = casts.len();
    match casts.entry(next) {
        Ok(entry) => {
            entry.insert_entry(cast);
        }
        Err(_) => unreachable!(),
    }
    least_or(casts, least, index)
}

/// The index of the least copy's cast, so that the casts before it have no copy in flight. 0 if
/// there is no least copy.
#[inline(always)]
pub fn front_of(least: &Option<Least>) -> usize
    ensures some { IfSome least.now (λ l. result ≡ l.spot.index) }
    ensures none { IfNone least.now (result ≡ 0) }
{
    match least {
        Some(least) => least.spot.index,
        None => 0,
    }
}

/// Removes the copy to this receiver of the cast at this index from those in flight.
#[inline(always)]
pub fn remove_at(casts: &mut Casts, index: usize, to: usize)
    requires { to < 256 }
    ensures { (e : Entry) → slice_get casts.old.entries index ≡ Some e →
        casts.new ≡ with_value_at casts.old index (without_to e.1 to) }
{
    if let Some(cast) = casts.get_index_mut(index) {
        cast.left.remove(to);
    }
}

/// The packet of the cast at this index once more: shared with the cast or, if it can't be, in the
/// memory of at most one room.
pub fn double_packet(casts: &mut Casts, index: usize, reserve: &mut Reserve) -> Bytes
    requires room { 1 ≤ reserve.old.room }
    requires fits { (c : Cast) → slice_get (values casts.old) index ≡ Some c
        → length c.bytes ≤ reserve.old.most }
    ensures entries { casts.new.entries ≡ casts.old.entries }
    ensures spare { spare casts.new ≡ spare casts.old }
    ensures bytes { (c : Cast) → slice_get (values casts.old) index ≡ Some c
        → (result ≡ c.bytes) × (reserve.new ≡ record reserve.old { room = reserve.old.room - 1 }) }
{
    match casts.get_index_mut(index) {
        Some(cast) => reserve.double(&mut cast.bytes),
        None => Bytes::empty(),
    }
}

/// This packet once more, if the last cast has the same: its memory is shared with that cast. None
/// if it can't be shared, or if the last cast has another packet.
pub fn share_last(casts: &mut Casts, alloc: Global, packet: &[u8]) -> Option<Bytes>
    ensures entries { casts.new.entries ≡ casts.old.entries }
    ensures spare { spare casts.new ≡ spare casts.old }
    ensures packet { IfSome result (λ s. s ≡ packet.now) }
{
    let last = casts.len().saturating_sub(1);
    let cast = casts.get_index_mut(last)?;
    if cast.bytes.as_slice() != packet {
        return None;
    }
    cast.bytes.share(alloc)
}
