//! What handlers read from a routing table, and the entries that they make.
ghost use Rattle.std.specs.Prelude.{◌≡◌, ◌<◌, ◌+◌, true};
ghost use Rattle.std.specs.FinSet as sets;
ghost use Rattle.aodv_model.specs.Tables.{nhop, sqn, in_vD, update, add_pre};
ghost use Rattle.aodv_model.specs.Handlers.{one, neighbour_entry as the_neighbour_entry, route_entry as the_route_entry};

use aodv_model::{Entry, Flag, Known};
use aodv_table::Table;
use mesh_base::NodeSet;

// The entry of a neighbour that was heard.
fn neighbour_entry(from: usize) -> Entry
    ensures { result ≡ the_neighbour_entry from }
{
    Entry {
        dsn: 0,
        dsk: Known::Unk,
        flag: Flag::Val,
        hops: 1,
        next: from,
        pre: NodeSet::new(),
    }
}

/// Updates the entry of a neighbour that was heard. Usually that would change nothing; the table is
/// asked about this first.
#[inline(always)]
pub(crate) fn note_neighbour<T: Table>(table: &mut T, from: usize)
    requires below { from < T.nodes table.old }
    requires room { sets.contains (T.rooms table.old) from ≡ true }
    ensures entries { T.entries table.new
        ≡ update (T.entries table.old) from (the_neighbour_entry from) }
    ensures rooms { T.rooms table.new ≡ T.rooms table.old }
    ensures nodes { T.nodes table.new ≡ T.nodes table.old }
{
    if !table.is_neighbour(from) {
        table.update(from, neighbour_entry(from));
    }
}

/// The entry that a request or a reply with this number and this many hops leads to.
pub(crate) fn route_entry(dsn: u32, hops: u8, from: usize) -> Entry
    requires { hops < 255 }
    ensures { result ≡ the_route_entry dsn hops from }
{
    Entry {
        dsn,
        dsk: Known::Kno,
        flag: Flag::Val,
        hops: hops + 1,
        next: from,
        pre: NodeSet::new(),
    }
}

/// The next hop of d's entry, or 0 if it has none.
pub(crate) fn next_hop<T: Table>(table: &T, d: usize) -> usize
    requires { d < T.nodes table.now }
    ensures { result ≡ nhop (T.entries table.now) d }
{
    match table.get(d) {
        Some(e) => e.next,
        None => 0,
    }
}

/// Whether d has a valid entry.
pub(crate) fn has_route<T: Table>(table: &T, d: usize) -> bool
    requires { d < T.nodes table.now }
    ensures { result ≡ in_vD (T.entries table.now) d }
{
    match table.get(d) {
        Some(e) => e.flag == Flag::Val,
        None => false,
    }
}

/// The sequence number of d, or 0 if it has no entry.
pub(crate) fn number<T: Table>(table: &T, d: usize) -> u32
    requires { d < T.nodes table.now }
    ensures { result ≡ sqn (T.entries table.now) d }
{
    match table.get(d) {
        Some(e) => e.dsn,
        None => 0,
    }
}

/// Node p joins the precursors of d's entry.
pub(crate) fn join_precursor<T: Table>(table: &mut T, d: usize, p: usize)
    requires below { d < T.nodes table.old }
    requires node { p < 256 }
    ensures entries { T.entries table.new ≡ add_pre (T.entries table.old) d (one p) }
    ensures rooms { T.rooms table.new ≡ T.rooms table.old }
    ensures nodes { T.nodes table.new ≡ T.nodes table.old }
{
    let mut nodes = NodeSet::new();
    nodes.add(p);
    table.add_pre(d, &nodes);
}
