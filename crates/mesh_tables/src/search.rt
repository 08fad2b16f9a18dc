//! The first edge that fails.
ghost use Rattle.std.specs.Prelude.{◌≡◌, ◌<◌, ◌^◌, ℕ, Some, None, IfNone};
ghost use Rattle.mesh_tables.specs.Tables.{Cycle, IsFirstFault};
ghost use Rattle.mesh_tables.specs.Printed.{edges_in, edges_of, table_in, tables_of};
ghost use Rattle.mesh_tables.specs.Search as search;
ghost use Rattle.mesh_tables.specs.Kept.{shown_in, size_of};

use crate::printed::{PrintedTables, Table};
use crate::row::{Row, is_better_row};
use aodv_model::Flag;
use std::collections::BTreeMap;

/// An edge whose next hop isn't the destination and has a valid entry that isn't better: the
/// destination, the node and the node's next hop, as addresses.
#[derive(Clone, Copy, PartialEq, Eq)]
pub struct FailingEdge {
    pub dest: u32,
    pub node: u32,
    pub next: u32,
}

// The entry of x for d.
fn entry_at(closed: &BTreeMap<u32, Table>, x: u32, d: u32) -> Option<Row>
    ensures { result ≡ tables_of (shown_in closed.now.entries) x d }
{
    let rows = closed.get(&x)?;
    rows.get(&d).copied()
}

// The next hop of x's entry for d, if the edge fails.
#[tactic(auto, unfolding(crate::specs::Search::failing_next))]
fn failing_next(closed: &BTreeMap<u32, Table>, x: u32, d: u32, row: &Row) -> Option<u32>
    ensures { result ≡ search.failing_next (tables_of (shown_in closed.now.entries)) x d row.now }
{
    if x == d || row.flag == Flag::Inv || row.next == d {
        return None;
    }
    let next = entry_at(closed, row.next, d)?;
    if next.flag == Flag::Val && !is_better_row(&next, row) {
        Some(row.next)
    } else {
        None
    }
}

// The lesser of the edge found so far and one that fails, if there is one with this next hop.
fn lesser(best: Option<FailingEdge>, d: u32, x: u32, next: Option<u32>) -> Option<FailingEdge>
    ensures { result ≡ search.lesser best d x next }
{
    let Some(next) = next else {
        return best;
    };
    let found = FailingEdge {
        dest: d,
        node: x,
        next,
    };
    match best {
        None => Some(found),
        Some(least) => {
            if d < least.dest || d == least.dest && x < least.node {
                Some(found)
            } else {
                Some(least)
            }
        }
    }
}

// The least of the edge found so far and the failing edges of x.
fn search_rows(
    closed: &BTreeMap<u32, Table>,
    x: u32,
    rows: &Table,
    best: Option<FailingEdge>,
) -> Option<FailingEdge>
    requires { table_in (shown_in closed.now.entries) x ≡ Some rows.now.entries }
    ensures { let tables = tables_of (shown_in closed.now.entries) in
        result ≡ search.search_rows tables x rows.now.entries best }
{
    let mut best = best;
    for (d, row) in rows {
        let next = failing_next(closed, x, *d, row);
        best = lesser(best, *d, x, next);
    }
    best
}

// How many edges x has.
fn count_edges(x: u32, rows: &Table) -> usize
    ensures { result ≡ edges_of x rows.now.entries }
{
    rows.iter()
        .filter(|(d, row)| row.flag == Flag::Val && **d != x)
        .count()
}

fn least_in(closed: &BTreeMap<u32, Table>) -> Option<FailingEdge>
    ensures { let shown = shown_in closed.now.entries in
        result ≡ search.search (tables_of shown) shown None }
{
    let mut best = None;
    for (x, rows) in closed {
        best = search_rows(closed, *x, rows, best);
    }
    best
}

fn first_in(closed: &BTreeMap<u32, Table>) -> Option<FailingEdge>
    ensures first { IsFirstFault (tables_of (shown_in closed.now.entries)) result }
    ensures acyclic { IfNone result
        ((d : ℕ) → ¬ (Cycle (tables_of (shown_in closed.now.entries)) d)) }
{
    least_in(closed)
}

fn count_all(closed: &BTreeMap<u32, Table>) -> u64
    requires { size_of (shown_in closed.now.entries) < 2 ^ 64 }
    ensures { result ≡ edges_in (shown_in closed.now.entries) }
{
    let mut edges = 0;
    for (x, rows) in closed {
        edges += count_edges(*x, rows) as u64;
    }
    edges
}

impl PrintedTables {
    /// The first edge that fails, by rising destination and then by rising node, in the tables
    /// whose blocks are closed. None if they are sound; then no destination has a cycle in them.
    /// Each entry costs at most one look-up of its next hop's entry.
    pub fn first_failing(&self) -> Option<FailingEdge>
        ensures first { IsFirstFault (tables_of self.now.closed) result }
        ensures acyclic { IfNone result ((d : ℕ) → ¬ (Cycle (tables_of self.now.closed) d)) }
    {
        first_in(&self.closed)
    }

    /// How many edges the tables whose blocks are closed have, for all destinations together.
    pub fn edges(&self) -> u64
        ensures { result ≡ edges_in self.now.closed }
    {
        count_all(&self.closed)
    }
}
