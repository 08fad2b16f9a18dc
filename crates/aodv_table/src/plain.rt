//! A table over an ordered map.
ghost use Rattle.std.specs.Prelude.{◌≡◌, ◌≤◌, true, IsSome, OnOk, OnErr, IsOk};
ghost use Rattle.std.specs.FinMap as maps;
ghost use Rattle.std.specs.FinSet as sets;
ghost use Rattle.aodv_table.specs.Calls.{with_entry};
ghost use Rattle.aodv_table.specs.Seen.{without_entries};
ghost use Rattle.aodv_table.specs.Rows.{entries_in, rooms_in};

use crate::merge::{is_neighbour_entry, mark_valid};
use crate::table::Table;
use aodv_model::Entry;
use mesh_base::{MOST_NODES, NoMemory, NodeSet};
use std::alloc::Global;
use std::collections::BTreeMap;
use std::marker::Model;

/// A table over an ordered map. A destination with room has a row, which holds its entry or none,
/// so that adding or removing an entry takes no memory.
#[derive(Drop)]
pub struct PlainTable {
    nodes: usize,
    rows: BTreeMap<usize, Option<Entry>>,
    valid: NodeSet,
}

impl Model for PlainTable {
    ghost use Rattle.aodv_table.specs.Seen.{TableSeen, seen_code};
    ghost use Rattle.aodv_table.specs.Rows.{entries_in, rooms_in, AreRows};

    ghost Value = { TableSeen };

    ghost coded = { seen_code };

    ghost view = { λ t. record {
      entries = entries_in t.rows.entries;
      rooms = rooms_in t.rows.entries;
      nodes = t.nodes;
    } };

    ghost invariant = { λ t. AreRows t.nodes t.rows.entries t.valid };
}

// The entry of d.
fn entry_at(rows: &BTreeMap<usize, Option<Entry>>, d: usize) -> Option<Entry>
    ensures value { result ≡ maps.get (entries_in rows.now.entries) d }
    ensures room { IsSome result → sets.contains (rooms_in rows.now.entries) d ≡ true }
{
    match rows.get(&d) {
        Some(row) => *row,
        None => None,
    }
}

// Writes the row of d, which has to be there.
fn write_row(rows: &mut BTreeMap<usize, Option<Entry>>, d: usize, row: Option<Entry>)
    requires { sets.contains (rooms_in rows.old.entries) d ≡ true }
    ensures entries { entries_in rows.new.entries ≡ with_entry (entries_in rows.old.entries) d row }
    ensures rooms { rooms_in rows.new.entries ≡ rooms_in rows.old.entries }
{
    match rows.insert(d, row) {
        Ok(_) => {}
        Err(_) => unreachable!(),
    }
}

// Makes a row for d, if there is none.
fn add_row(rows: &mut BTreeMap<usize, Option<Entry>>, d: usize) -> Result<(), NoMemory>
    ensures entries { entries_in rows.new.entries ≡ entries_in rows.old.entries }
    ensures rooms { OnOk result
        (rooms_in rows.new.entries ≡ sets.insert (rooms_in rows.old.entries) d) }
    ensures there { sets.contains (rooms_in rows.old.entries) d ≡ true → IsOk result }
    ensures still { sets.contains (rooms_in rows.old.entries) d ≡ true
        → rooms_in rows.new.entries ≡ rooms_in rows.old.entries }
    ensures refused { OnErr result (rooms_in rows.new.entries ≡ rooms_in rows.old.entries) }
{
    if rows.contains_key(&d) {
        return Ok(());
    }
    rows.insert(d, None)?;
    Ok(())
}

impl PlainTable {
    /// A table without entries and without room, for a mesh with this many nodes. The call takes no
    /// memory; the table keeps the allocator with which room is made.
    pub fn new(alloc: Global, nodes: usize) -> PlainTable
        requires { nodes ≤ MOST_NODES }
        ensures { result ≡ without_entries sets.empty nodes }
    {
        PlainTable {
            nodes,
            rows: BTreeMap::new(alloc),
            valid: NodeSet::new(),
        }
    }
}

impl Table for PlainTable {
    ghost entries = { λ t. t.entries };

    ghost rooms = { λ t. t.rooms };

    ghost nodes = { λ t. t.nodes };

    fn nodes(&self) -> usize {
        self.nodes
    }

    fn get(&self, d: usize) -> Option<Entry> {
        entry_at(&self.rows, d)
    }

    fn has_room(&self, d: usize) -> bool {
        self.rows.contains_key(&d)
    }

    fn make_room(&mut self, d: usize) -> Result<(), NoMemory> {
        add_row(&mut self.rows, d)
    }

    fn put(&mut self, d: usize, e: Option<Entry>) {
        write_row(&mut self.rows, d, e);
        mark_valid(&mut self.valid, d, &e);
    }

    fn valid(&self) -> NodeSet {
        self.valid
    }

    fn is_neighbour(&self, d: usize) -> bool {
        is_neighbour_entry(d, &self.get(d))
    }
}
