//! The rows of a table, one for each node.
ghost use Rattle.std.specs.Prelude.{◌≡◌, ◌<◌, length, get_or, slice_set, None, IfOk};
ghost use Rattle.aodv_model.specs.Tables.{pre_in};
ghost use Rattle.aodv_table.specs.Indexed.{AreEmpty};

use crate::row::Row;
use aodv_model::Entry;
use mesh_base::{NoMemory, NodeSet};
use std::alloc::Global;
use std::marker::Model;

/// A list of entries, any of which may be missing. Their precursors are kept in a list of their
/// own: without them a row takes 16 bytes, so that more rows stay in the processor's cache.
#[derive(Drop)]
pub(crate) struct RowList {
    rows: Vec<Row>,
    precursors: Vec<NodeSet>,
}

impl Model for RowList {
    ghost use Rattle.std.specs.Prelude.{◌≡◌, List, Option, length};
    ghost use Rattle.std.specs.Coded.{coded_option, coded_list};
    ghost use Rattle.aodv_model.specs.declared.entry.Entry.{Entry};
    ghost use Rattle.aodv_model.specs.Codes.{entry_code};
    ghost use Rattle.aodv_table.specs.Indexed.{whole_rows};

    ghost Value = { List (Option Entry) };

    ghost coded = { coded_list (coded_option entry_code) };

    ghost view = { λ r. whole_rows r.rows.items r.precursors.items };

    ghost invariant = { λ r. length r.precursors.items ≡ length r.rows.items };
}

// The precursors of an entry.
#[inline(always)]
fn precursors_of(entry: &Option<Entry>) -> NodeSet
    ensures { result ≡ pre_in entry.now }
{
    match entry {
        Some(e) => e.pre,
        None => NodeSet::new(),
    }
}

impl RowList {
    /// A row without an entry for each node.
    pub fn new(alloc: Global, nodes: usize) -> Result<RowList, NoMemory>
        ensures each { IfOk result (λ rows. length rows ≡ nodes) }
        ensures none { IfOk result (λ rows. AreEmpty rows) }
    {
        let mut rows = Vec::with_capacity(alloc, nodes)?;
        let mut precursors = Vec::with_capacity(alloc, nodes)?;
        for _ in 0..nodes {
            rows.push(Row::new(None))?;
            precursors.push(NodeSet::new())?;
        }
        Ok(RowList { rows, precursors })
    }

    /// The entry of row d, if it has one.
    #[inline(always)]
    pub fn entry(&self, d: usize) -> Option<Entry>
        requires { d < length self.now }
        ensures { result ≡ get_or self.now d None }
    {
        self.rows[d].entry(&self.precursors[d])
    }

    /// Makes this the entry of row d, or leaves the row without one.
    #[inline(always)]
    pub fn set(&mut self, d: usize, entry: Option<Entry>)
        requires { d < length self.old }
        ensures { self.new ≡ slice_set self.old d entry }
    {
        self.precursors[d] = precursors_of(&entry);
        self.rows[d] = Row::new(entry);
    }
}
