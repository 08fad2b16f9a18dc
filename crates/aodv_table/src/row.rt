//! A row of a table.
ghost use Rattle.std.specs.Prelude.{◌≡◌};
ghost use Rattle.std.specs.FinSet as sets;
ghost use Rattle.aodv_table.specs.Indexed.{with_precursors};

use aodv_model::{Entry, Flag, Known};
use mesh_base::NodeSet;
use std::marker::Model;

/// A row, seen as the entry that it holds without the entry's precursors, or as none. Whether it
/// holds one is kept in a byte that the fields of an entry leave free: an `Option` would take a
/// word more in each row. In a row without an entry the other fields mean nothing.
#[derive(Drop)]
pub(crate) struct Row {
    dsn: u32,
    dsk: Known,
    flag: Flag,
    hops: u8,
    there: bool,
    next: usize,
}

impl Model for Row {
    ghost use Rattle.std.specs.Prelude.{Option, Some, None, if◌then◌else◌};
    ghost use Rattle.std.specs.Coded.{coded_option};
    ghost use Rattle.std.specs.FinSet as sets;
    ghost use Rattle.aodv_model.specs.declared.entry.Entry.{Entry};
    ghost use Rattle.aodv_model.specs.Codes.{entry_code};

    ghost Value = { Option Entry };

    ghost coded = { coded_option entry_code };

    ghost view = { λ r. if r.there then Some (record {
      dsn = r.dsn;
      dsk = r.dsk;
      flag = r.flag;
      hops = r.hops;
      next = r.next;
      pre = sets.empty;
    }) else None };
}

impl Row {
    /// A row with this entry, without its precursors; or a row with none.
    #[inline(always)]
    pub fn new(entry: Option<Entry>) -> Row
        ensures { result ≡ with_precursors entry sets.empty }
    {
        match entry {
            Some(e) => Row {
                dsn: e.dsn,
                dsk: e.dsk,
                flag: e.flag,
                hops: e.hops,
                there: true,
                next: e.next,
            },
            None => Row {
                dsn: 0,
                dsk: Known::Unk,
                flag: Flag::Inv,
                hops: 0,
                there: false,
                next: 0,
            },
        }
    }

    /// The entry that the row holds, if any, with these precursors.
    #[inline(always)]
    pub fn entry(&self, precursors: &NodeSet) -> Option<Entry>
        ensures { result ≡ with_precursors self.now precursors.now }
    {
        if !self.there {
            return None;
        }
        Some(Entry {
            dsn: self.dsn,
            dsk: self.dsk,
            flag: self.flag,
            hops: self.hops,
            next: self.next,
            pre: *precursors,
        })
    }
}
