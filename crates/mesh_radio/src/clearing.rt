//! How casts without a copy in flight are removed.
ghost use Rattle.std.specs.Prelude.{◌≡◌, ℕ, ◌≤◌, ◌<◌, filter, length, slice_get, Some, false};
ghost use Rattle.std.specs.Bool.{OnTrue};
ghost use Rattle.indexmap.specs.IndexMap.{set_value_at, spare, with_value_at};
ghost use Rattle.mesh_radio.specs.Casts.{Entry, AreRising, AreGone, IsTidied, has_left, without_packet};

use crate::casts::{Cast, Casts};
use mesh_base::Bytes;
use std::mem::replace;

/// Fewer casts without a copy in flight than this are left where they are: to sweep them would cost
/// more than the 32 KB of memory that they take up.
const LYING: usize = 256;

// Whether no copy of the cast at this index flies.
fn is_done(casts: &Casts, index: usize) -> bool
    ensures { OnTrue result
        ((e : Entry) × (slice_get casts.now.entries index ≡ Some e) × (has_left e.1 ≡ false)) }
{
    match casts.get_index(index) {
        Some((_, cast)) => cast.left.next_from(0).is_none(),
        None => false,
    }
}

// Drops the packet of the cast at this index. It is a call of its own: inlined, the memory of its
// locals would be cleared at each take.
#[inline(never)]
fn drop_packet(casts: &mut Casts, index: usize)
    ensures { (e : Entry) → slice_get casts.old.entries index ≡ Some e →
        casts.new ≡ with_value_at casts.old index (without_packet e.1) }
{
    if let Some(cast) = casts.get_index_mut(index) {
        cast.bytes = Bytes::empty();
    }
}

/// The packet of the cast at this index. A short one is copied, a longer one is moved out.
pub fn take_packet(casts: &mut Casts, index: usize) -> Bytes
    ensures packet { (e : Entry) → slice_get casts.old.entries index ≡ Some e →
        result ≡ (e.1).bytes }
    ensures short { (e : Entry) → slice_get casts.old.entries index ≡ Some e →
        length (e.1).bytes ≤ 32 → casts.new.entries ≡ casts.old.entries }
    ensures long { (e : Entry) → slice_get casts.old.entries index ≡ Some e →
        32 < length (e.1).bytes →
        casts.new.entries ≡ set_value_at casts.old.entries index (without_packet e.1) }
    ensures spare { spare casts.old ≤ spare casts.new }
{
    match casts.get_index_mut(index) {
        Some(cast) => match cast.bytes.clone_inline() {
            Some(short) => short,
            None => replace(&mut cast.bytes, Bytes::empty()),
        },
        None => Bytes::empty(),
    }
}

// Removes the casts without a copy in flight. It is a call of its own: inlined, the memory of its
// locals would be cleared at each take.
#[cold]
#[inline(never)]
fn sweep(casts: &mut Casts)
    ensures entries { casts.new.entries ≡ filter (λ e. has_left e.1) casts.old.entries }
    ensures spare { spare casts.old ≤ spare casts.new }
{
    casts.retain(
        |_first: &u64, cast: &mut Cast| -> bool
            ensures { (result ≡ has_left cast.old) × (cast.new ≡ cast.old) }
        { cast.left.next_from(0).is_some() },
    );
}

/// Clears up after a copy of the cast at this index was removed, when the first `gone` casts have
/// no copy in flight. With the last copy of a cast its packet is dropped. About `done` casts have
/// no copy in flight: once they are at least `LYING`, and more than half of all casts, they are
/// removed too. The first casts, as many as the answer says, have no copy in flight then.
#[inline(always)]
pub fn clear(casts: &mut Casts, index: usize, gone: usize, done: &mut usize) -> usize
    requires rising { (next : ℕ) × AreRising 1 casts.old.entries next }
    requires gone { AreGone casts.old.entries gone }
    ensures tidied { IsTidied casts.old.entries casts.new.entries }
    ensures gone { AreGone casts.new.entries result }
    ensures spare { spare casts.old ≤ spare casts.new }
{
    if !is_done(casts, index) {
        return gone;
    }
    drop_packet(casts, index);
    *done = done.saturating_add(1);
    if *done < LYING || *done <= casts.len() / 2 {
        return gone;
    }
    sweep(casts);
    *done = 0;
    0
}
