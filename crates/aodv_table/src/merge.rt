//! What becomes of an entry when another comes for the same destination, the tests by which entries
//! are found, and the sets that their destinations are kept in.
ghost use Rattle.std.specs.Prelude.{◌≡◌, ◌<◌, ◌↔◌, if◌then◌else◌, false, Some, None};
ghost use Rattle.std.specs.FinSet as sets;
ghost use Rattle.aodv_model.specs.Tables.{entry_after, goes_by, is_valid_in};
ghost use Rattle.aodv_table.specs.Calls.{is_neighbour_entry};

use aodv_model::{Entry, Flag, Known};
use mesh_base::NodeSet;

/// The entry of a destination after r has come for it.
#[tactic(auto, unfolding(aodv_model::specs::Tables::merge))]
pub(crate) fn entry_after(before: Option<Entry>, r: Entry) -> Entry
    ensures { result ≡ entry_after before r }
{
    let Some(s) = before else {
        return r;
    };
    let mut pre = s.pre;
    pre.join(&r.pre);
    if s.dsn < r.dsn {
        return Entry { pre, ..r };
    }
    if s.dsn == r.dsn && (r.hops < s.hops || s.flag == Flag::Inv) {
        return Entry { pre, ..r };
    }
    if r.dsk == Known::Unk {
        return Entry {
            pre,
            dsn: s.dsn,
            ..r
        };
    }
    Entry { pre, ..s }
}

/// Whether the entry differs from the one before.
pub(crate) fn is_changed(before: &Option<Entry>, after: &Entry) -> bool
    ensures { (result ≡ false) ↔ (before.now ≡ Some after.now) }
{
    match before {
        None => true,
        Some(s) => !s.same(after),
    }
}

/// The entry of a destination, if it is valid and has that next hop.
pub(crate) fn entry_by(entry: Option<Entry>, next: usize) -> Option<Entry>
    ensures { result ≡ (if goes_by entry next then entry else None) }
{
    match &entry {
        Some(e) if e.flag == Flag::Val && e.next == next => entry,
        _ => None,
    }
}

/// Adds d to the valid destinations or removes it from them, as its row says.
pub(crate) fn mark_valid(valid: &mut NodeSet, d: usize, row: &Option<Entry>)
    requires { d < 256 }
    ensures { valid.new
        ≡ (if is_valid_in row.now then sets.insert valid.old d else sets.remove valid.old d) }
{
    match row {
        Some(entry) if entry.flag == Flag::Val => valid.add(d),
        _ => valid.remove(d),
    }
}

/// Whether the entry of d is that of a neighbour that was heard.
pub(crate) fn is_neighbour_entry(d: usize, entry: &Option<Entry>) -> bool
    ensures { result ≡ is_neighbour_entry d entry.now }
{
    match entry {
        Some(e) => e.next == d && e.hops == 1 && e.flag == Flag::Val && e.dsk == Known::Unk,
        None => false,
    }
}

/// Adds d to the neighbours that were heard or removes it from them, as its row says.
pub(crate) fn mark_neighbour(neighbours: &mut NodeSet, d: usize, row: &Option<Entry>)
    requires { d < 256 }
    ensures { neighbours.new ≡ (if is_neighbour_entry d row.now
        then sets.insert neighbours.old d else sets.remove neighbours.old d) }
{
    if is_neighbour_entry(d, row) {
        neighbours.add(d);
    } else {
        neighbours.remove(d);
    }
}
