//! A table with a row for every node.
ghost use Rattle.std.specs.Prelude.{◌≡◌, ◌<◌, ◌≤◌, true, IsOk, IfOk, OnOk, OnErr, None};
ghost use Rattle.std.specs.FinSet as sets;
ghost use Rattle.mesh_base.specs.Members.{AreAmong};
ghost use Rattle.aodv_table.specs.Calls.{IsBelow, nodes_below};
ghost use Rattle.aodv_table.specs.Seen.{without_entries};

use crate::merge::{mark_neighbour, mark_valid};
use crate::row_list::RowList;
use crate::table::Table;
use aodv_model::Entry;
use mesh_base::{MOST_NODES, NoMemory, NodeSet};
use std::alloc::Global;
use std::marker::Model;

/// A table with a row for every node of the mesh, made once. A row holds the entry of its node, or
/// none. So an entry is read and written at its index, with no search and no memory. Whether a node
/// is a neighbour that was heard is asked for each packet, and the rows are many: so these
/// neighbours are kept as a set of their own.
#[derive(Drop)]
pub struct RowTable {
    neighbours: NodeSet,
    rows: RowList,
    nodes: usize,
    valid: NodeSet,
}

impl Model for RowTable {
    ghost use Rattle.aodv_table.specs.Calls.{nodes_below};
    ghost use Rattle.aodv_table.specs.Seen.{TableSeen, seen_code};
    ghost use Rattle.aodv_table.specs.Indexed.{entries_from, AreIndexed};

    ghost Value = { TableSeen };

    ghost coded = { seen_code };

    ghost view = { λ t. record {
      entries = entries_from 0 t.rows;
      rooms = nodes_below t.nodes;
      nodes = t.nodes;
    } };

    ghost invariant = { λ t. AreIndexed t.nodes t.rows t.valid t.neighbours };
}

impl RowTable {
    /// A table without entries, with room for an entry of every node of a mesh with this many
    /// nodes.
    pub fn new(alloc: Global, nodes: usize) -> Result<RowTable, NoMemory>
        requires { nodes ≤ MOST_NODES }
        ensures { IfOk result (λ t. t ≡ without_entries (nodes_below nodes) nodes) }
    {
        Ok(RowTable {
            nodes,
            rows: RowList::new(alloc, nodes)?,
            valid: NodeSet::new(),
            neighbours: NodeSet::new(),
        })
    }
}

impl Table for RowTable {
    ghost entries = { λ t. t.entries };

    ghost rooms = { λ t. t.rooms };

    ghost nodes = { λ t. t.nodes };

    fn nodes(&self) -> usize
        ensures value { result ≡ self.now.nodes }
        ensures most { result ≤ MOST_NODES }
        ensures below { IsBelow self.now.nodes self.now.entries }
        ensures rooms { self.now.rooms ≡ nodes_below self.now.nodes }
    {
        self.nodes
    }

    #[inline(always)]
    fn get(&self, d: usize) -> Option<Entry> {
        self.rows.entry(d)
    }

    fn has_room(&self, d: usize) -> bool {
        d < self.nodes
    }

    /// Changes nothing: every row is there from the start.
    fn make_room(&mut self, d: usize) -> Result<(), NoMemory>
        requires { d < self.old.nodes }
        ensures always { IsOk result }
        ensures nothing { self.new ≡ self.old }
        ensures here { OnOk result (sets.contains self.new.rooms d ≡ true) }
        ensures there { sets.contains self.old.rooms d ≡ true → IsOk result }
        ensures still { sets.contains self.old.rooms d ≡ true → self.new.rooms ≡ self.old.rooms }
        ensures keeps { AreAmong self.old.rooms self.new.rooms }
        ensures refused { OnErr result (self.new.rooms ≡ self.old.rooms) }
        ensures entries { self.new.entries ≡ self.old.entries }
        ensures nodes { self.new.nodes ≡ self.old.nodes }
    {
        prove!(d < self.nodes);
        Ok(())
    }

    #[inline(always)]
    fn put(&mut self, d: usize, e: Option<Entry>) {
        self.rows.set(d, e);
        mark_valid(&mut self.valid, d, &e);
        mark_neighbour(&mut self.neighbours, d, &e);
    }

    fn valid(&self) -> NodeSet {
        self.valid
    }

    #[inline(always)]
    fn is_neighbour(&self, d: usize) -> bool {
        self.neighbours.has(d)
    }
}
