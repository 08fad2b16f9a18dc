//! The lists of the copies in flight: the copies of a cast share one.
ghost use Rattle.std.specs.Prelude.{◌≡◌, ℕ, filter};
ghost use Rattle.mesh_trail.specs.Casts.{list_of, AreEnding, IsPosition, flies_in};

use crate::walk::Walk;
use mesh_radio::Radio;

/// A cast: its copies have the ids from `first` on that are below `end`, and the list of its
/// message.
#[derive(Drop)]
pub(crate) struct Cast {
    pub first: u64,
    pub end: u64,
    pub list: Walk,
}

// How many of the casts end no later than this id, by binary search.
fn position_after(casts: &[Cast], id: u64) -> usize
    requires { (next : ℕ) × AreEnding 0 casts.now next }
    ensures { IsPosition casts.now id result }
{
    let mut low = 0;
    let mut high = casts.len();
    'halves: while low < high {
        let middle = low + (high - low) / 2;
        if casts[middle].end <= id {
            low = middle + 1;
        } else {
            high = middle;
        }
    }
    low
}

/// The list of the copy of this id.
pub(crate) fn find(casts: &[Cast], id: u64) -> &[usize]
    requires { (next : ℕ) × AreEnding 0 casts.now next }
    ensures { result.now ≡ list_of casts.now id }
{
    match casts.get(position_after(casts, id)) {
        Some(cast) => cast.list.as_slice(),
        None => &[],
    }
}

// Whether a copy of the cast flies. Most casts end no later than the least copy, and need no
// search.
fn flies(radio: &Radio, cast: &Cast) -> bool
    ensures { result ≡ flies_in radio.now.flying cast.now }
{
    // The contract of `count` says that the copies are numbered in order.
    let _copies = radio.count();
    let Some(least) = radio.first_id() else {
        return false;
    };
    if cast.end <= least {
        return false;
    }
    match radio.next_from(cast.first, &mut 0) {
        Some(copy) => copy.id < cast.end,
        None => false,
    }
}

/// Removes the casts without a copy in flight.
#[cold]
#[inline(never)]
pub(crate) fn sweep(casts: &mut Vec<Cast>, radio: &Radio)
    ensures { casts.new.items ≡ filter (flies_in radio.now.flying) casts.old.items }
{
    casts.retain(
        |cast: &Cast| -> bool
            ensures { result ≡ flies_in radio.entry.now.flying cast.now }
        { flies(radio, cast) },
    );
}
