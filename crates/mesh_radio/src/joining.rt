//! How way is made for a cast whose id isn't after those of all casts' copies.
ghost use Rattle.std.specs.Prelude.{◌≡◌, ℕ, ◌≤◌};
ghost use Rattle.std.specs.Bool.{OnTrue};
ghost use Rattle.indexmap.specs.IndexMap.{spare};
ghost use Rattle.mesh_radio.specs.Copies.{AreBefore};
ghost use Rattle.mesh_radio.specs.Casts.{Entry, AreCasts, IsCut, IsFront, IsLeastOf, copies_of};

use crate::casts::{Cast, Casts, Least, least_from};
use mesh_base::NodeSet;

// Whether the id is after those of all casts' copies.
fn is_after(casts: &Casts, id: u64) -> bool
    requires casts { (next : ℕ) × AreCasts casts.now.entries next }
    requires some { 1 ≤ id }
    ensures { OnTrue result (AreCasts casts.now.entries id) }
{
    match casts.last() {
        Some((first, cast)) => *first + cast.to.count() as u64 <= id,
        None => true,
    }
}

// The first members of the set, at most this many.
fn front(to: &NodeSet, count: usize) -> NodeSet
    ensures { IsFront to.now count result }
{
    let mut front = *to;
    'nodes: for node in 0..256 {
        if to.count_below(node) >= count {
            front.remove(node);
        }
    }
    front
}

// Frees the ids from this one on, which no copy in flight has: the casts forget their copies with
// such ids. It is a call of its own: inlined, the memory of its locals would be cleared at each
// put.
#[cold]
#[inline(never)]
fn free_from(casts: &mut Casts, id: u64)
    requires casts { (next : ℕ) × AreCasts casts.old.entries next }
    requires before { AreBefore id (copies_of casts.old.entries) }
    requires some { 1 ≤ id }
    ensures same { copies_of casts.new.entries ≡ copies_of casts.old.entries }
    ensures casts { AreCasts casts.new.entries id }
    ensures spare { spare casts.old ≤ spare casts.new }
{
    casts.retain(
        |first: &u64, cast: &mut Cast| -> bool
            ensures { IsCut id first.now cast.old cast.new result }
        {
            if *first >= id {
                return false;
            }
            cast.to = front(&cast.to, (id - *first) as usize);
            true
        },
    );
}

/// Makes way for a cast at this id, which is after those of all copies in flight. Only casts whose
/// last copies have been removed can be in the way. The answer is the least copy after that;
/// `least` is the least copy before.
pub fn make_way(casts: &mut Casts, least: Option<Least>, id: u64) -> Option<Least>
    requires casts { (next : ℕ) × AreCasts casts.old.entries next }
    requires least { IsLeastOf casts.old.entries least }
    requires before { AreBefore id (copies_of casts.old.entries) }
    requires some { 1 ≤ id }
    ensures same { copies_of casts.new.entries ≡ copies_of casts.old.entries }
    ensures casts { AreCasts casts.new.entries id }
    ensures least { IsLeastOf casts.new.entries result }
    ensures spare { spare casts.old ≤ spare casts.new }
{
    if is_after(casts, id) {
        return least;
    }
    free_from(casts, id);
    least_from(casts, 0)
}
