//! An entry of a printed table.
ghost use Rattle.std.specs.Prelude.{◌≡◌};
ghost use Rattle.mesh_tables.specs.Tables.{entry_of, is_better_row};

use aodv_model::{Entry, Flag, Known, better};
use mesh_base::NodeSet;

/// An entry of a printed table. Its precursors aren't kept: no cycle depends on them.
#[derive(Clone, Copy, PartialEq, Eq)]
pub struct Row {
    /// The destination's sequence number.
    pub dsn: u32,
    /// Whether that number is known.
    pub known: Known,
    /// Whether the route is valid.
    pub flag: Flag,
    /// The number of hops to the destination.
    pub hops: u8,
    /// The address of the next hop.
    pub next: u32,
}

fn entry_of(row: &Row) -> Entry
    ensures { result ≡ entry_of row.now }
{
    Entry {
        dsn: row.dsn,
        dsk: row.known,
        flag: row.flag,
        hops: row.hops,
        next: row.next as usize,
        pre: NodeSet::new(),
    }
}

/// Whether the first entry is better than the second.
pub fn is_better_row(first: &Row, second: &Row) -> bool
    ensures { result ≡ is_better_row first.now second.now }
{
    better(&entry_of(first), &entry_of(second))
}
