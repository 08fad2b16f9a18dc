//! Copies that fly as they flew in another radio: those that one cast could have made share a
//! packet.
ghost use Rattle.std.specs.Prelude.{◌≡◌, ℕ, ◌<◌, ◌≤◌, ◌+◌, ◌-◌, ◌^◌, ◌++◌, ◌∷◌, [], length, slice_get, Some, OnOk, OnErr, IfOk};
ghost use Rattle.std.specs.Bool.{OnTrue};
ghost use Rattle.indexmap.specs.IndexMap.{with_value_at};
ghost use Rattle.mesh_base.specs.Members.{member_list};
ghost use Rattle.mesh_radio.specs.Copies.{AreBefore};
ghost use Rattle.mesh_radio.specs.Casts.{Entry, AreCasts, IsLeastOf, copies_of};
ghost use Rattle.mesh_radio.specs.Gathered.{IsNextOf, with_receiver};

use crate::casts::{Cast, Casts, LONGEST_INLINE, Least, launch, share_last};
use crate::joining::make_way;
use mesh_base::{Flying, NoMemory, NodeSet};
use std::alloc::Global;

// Whether the cast with this first id could have made the copy after its others.
fn is_next_of(first: u64, cast: &Cast, f: &Flying) -> bool
    requires few { first + length (member_list (cast.now).to) < 2 ^ 64 }
    ensures { OnTrue result (IsNextOf (first, cast.now) f.now) }
{
    f.bytes.as_slice().len() <= LONGEST_INLINE
        && first + cast.to.count() as u64 == f.id
        && cast.from == f.from
        && cast.to.next_from(f.to).is_none()
        && cast.bytes.as_slice() == f.bytes.as_slice()
}

// Whether the last cast could have made the copy after its others.
fn is_next(casts: &Casts, f: &Flying) -> bool
    requires { (next : ℕ) × AreCasts casts.now.entries next }
    ensures { let es = casts.now.entries in OnTrue result
        ((e : Entry) × (slice_get es (length es - 1) ≡ Some e) × IsNextOf e f.now) }
{
    match casts.last() {
        Some((first, cast)) => is_next_of(*first, cast, f),
        None => false,
    }
}

// Adds a copy of the last cast, which flies to this receiver.
fn extend_last(casts: &mut Casts, to: usize)
    requires { to < 256 }
    ensures { (e : Entry) → slice_get casts.old.entries (length casts.old.entries - 1) ≡ Some e →
        casts.new ≡ with_value_at casts.old (length casts.old.entries - 1) (with_receiver e.1 to) }
{
    let last = casts.len().saturating_sub(1);
    if let Some(cast) = casts.get_index_mut(last) {
        cast.to.add(to);
        cast.left.add(to);
    }
}

/// Adds the copy to those in flight, whose ids are before its own. It joins the last cast if some
/// copy flies and that cast could have made it after its others; else it has a cast of its own, for
/// which memory is needed, and shares its packet with the last cast if that has the same. The
/// answer is the least copy after that; `least` is the least copy before.
pub fn gather(
    casts: &mut Casts,
    alloc: Global,
    least: Option<Least>,
    f: Flying,
) -> Result<Option<Least>, NoMemory>
    requires casts { (next : ℕ) × AreCasts casts.old.entries next }
    requires least { IsLeastOf casts.old.entries least }
    requires id { (1 ≤ f.id) × (f.id + 1 < 2 ^ 64) }
    requires last { AreBefore f.id (copies_of casts.old.entries) }
    requires receiver { f.to < 256 }
    ensures copies { OnOk result
        (copies_of casts.new.entries ≡ copies_of casts.old.entries ++ f ∷ []) }
    ensures casts { OnOk result (AreCasts casts.new.entries (f.id + 1)) }
    ensures least { IfOk result (λ l. IsLeastOf casts.new.entries l) }
    ensures refused { OnErr result (casts.new.entries ≡ casts.old.entries) }
{
    if least.is_some() && is_next(casts, &f) {
        extend_last(casts, f.to);
        return Ok(least);
    }
    casts.reserve(1)?;
    let shared = share_last(casts, alloc, f.bytes.as_slice());
    let least = make_way(casts, least, f.id);
    let mut to = NodeSet::new();
    to.add(f.to);
    let cast = Cast {
        to,
        left: to,
        from: f.from,
        bytes: shared.unwrap_or(f.bytes),
    };
    Ok(launch(casts, least, f.id, cast))
}
