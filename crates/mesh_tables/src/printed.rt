//! The tables that a printed text shows, line by line.
ghost use Rattle.std.specs.Prelude.{◌≡◌, ◌≤◌, ◌+◌, ◌<◌, Some, None, Ok, Err, ◌||◌, nat_lt, codes, OnOk, OnErr, IsErrOf, length, is_some};
ghost use Rattle.std.specs.Ordering.{nat_cmp};
ghost use Rattle.std.specs.Str.{bytes_eq};
ghost use Rattle.std.specs.BTreeMap.{insert_entry};
ghost use Rattle.mesh_base.specs.Parts.{rest_parts};
ghost use Rattle.mesh_tables.specs.Printed as printed;
ghost use Rattle.mesh_tables.specs.Kept.{block_in, block_size, most_lines, shown_in, size_of};

use crate::entry_line::parse_entry;
use crate::row::Row;
use mesh_base::{Addr, MOST_NODES, NoMemory, cut};
use std::alloc::Global;
use std::collections::BTreeMap;
use std::marker::Model;
use thiserror::Error;

/// Why a line isn't read.
#[derive(Clone, Copy, Debug, PartialEq, Eq, Error)]
pub enum ReadError {
    /// The line's first word is `show`, but the line isn't `show ADDR` or shows one node more than
    /// a mesh may have; or the line is in a block and begins with `  entry `, but isn't an entry
    /// line or repeats a destination of the block.
    #[error("the line is refused")]
    BadLine,
    /// Memory ran out.
    #[error("no memory for a table")]
    NoMemory,
}

/// A node's entries, by destination.
pub type Table = BTreeMap<u32, Row>;

/// The node whose block is open, and its entries so far.
#[derive(Drop)]
pub struct OpenBlock {
    pub node: u32,
    pub rows: Table,
}

/// The tables that the lines read so far show. Memory is taken for each entry that is shown.
#[derive(Drop)]
pub struct PrintedTables {
    alloc: Global,
    pub(crate) closed: BTreeMap<u32, Table>,
    block: Option<OpenBlock>,
    lines: u64,
}

impl Model for PrintedTables {
    ghost use Rattle.std.specs.Prelude.{◌≤◌, ◌+◌, option_map};
    ghost use Rattle.mesh_tables.specs.Printed.{Reading};
    ghost use Rattle.mesh_tables.specs.Kept.{most_lines, shown_in, block_in, size_of, block_size};

    ghost Value = { Reading };

    ghost view = { λ t. record {
      closed = shown_in t.closed.entries;
      block = option_map block_in t.block;
      lines = t.lines;
    } };

    ghost invariant = { λ t. (size_of (shown_in t.closed.entries)
        + block_size (option_map block_in t.block) ≤ t.lines) × (t.lines ≤ most_lines) };
}

fn is_show(word: &[u8]) -> bool
    ensures { result ≡ bytes_eq word.now (codes "show") }
{
    word == b"show".as_slice()
}

// Puts a node's table in the place of the node's earlier one, if there is one.
fn put_table(closed: &mut BTreeMap<u32, Table>, node: u32, rows: Table) -> Result<(), NoMemory>
    ensures put { OnOk result (shown_in closed.new.entries
        ≡ insert_entry nat_cmp (shown_in closed.old.entries) node rows.entries) }
    ensures kept { OnErr result (closed.new.entries ≡ closed.old.entries) }
    ensures size { size_of (shown_in closed.new.entries)
        ≤ size_of (shown_in closed.old.entries) + length rows.entries }
{
    match closed.insert(node, rows) {
        Ok(_) => Ok(()),
        Err(_) => Err(NoMemory),
    }
}

// Whether a block of this node is closed, or there is room for one more node.
fn has_room(closed: &BTreeMap<u32, Table>, x: u32) -> bool
    ensures { result ≡ (is_some (printed.table_in (shown_in closed.now.entries) x)
        || nat_lt (length (shown_in closed.now.entries)) MOST_NODES) }
{
    closed.contains_key(&x) || closed.len() < MOST_NODES
}

// An entry joins a block.
fn add_row(block: &mut OpenBlock, d: u32, row: Row) -> Result<(), ReadError>
    ensures done { OnOk result (printed.with_entry (block_in block.old) (Some (d, row))
        ≡ Some (block_in block.new)) }
    ensures bad { IsErrOf result ReadError.BadLine →
        printed.with_entry (block_in block.old) (Some (d, row)) ≡ None }
    ensures size { length (block_in block.new).rows ≤ length (block_in block.old).rows + 1 }
{
    if block.rows.contains_key(&d) {
        return Err(ReadError::BadLine);
    }
    match block.rows.insert(d, row) {
        Ok(_) => Ok(()),
        Err(_) => Err(ReadError::NoMemory),
    }
}

// Reads a line of a block.
fn read_inner(block: &mut OpenBlock, line: &[u8]) -> Result<(), ReadError>
    ensures done { OnOk result (printed.inner_line (block_in block.old) line.now
        ≡ Some (block_in block.new)) }
    ensures bad { IsErrOf result ReadError.BadLine →
        printed.inner_line (block_in block.old) line.now ≡ None }
    ensures size { length (block_in block.new).rows ≤ length (block_in block.old).rows + 1 }
{
    if !line.starts_with(b"  entry ") {
        return Ok(());
    }
    match parse_entry(&line[8..]) {
        Some((d, row)) => add_row(block, d, row),
        None => Err(ReadError::BadLine),
    }
}

impl PrintedTables {
    /// Nothing is read yet, and no memory taken.
    pub fn new(alloc: Global) -> PrintedTables
        ensures { result ≡ printed.nothing_read }
    {
        PrintedTables {
            alloc,
            closed: BTreeMap::new(alloc),
            block: None,
            lines: 0,
        }
    }

    /// How many lines were read.
    pub fn lines(&self) -> u64
        ensures { result ≡ self.now.lines }
    {
        self.lines
    }

    /// For how many nodes a block is closed.
    pub fn nodes(&self) -> usize
        ensures { result ≡ length self.now.closed }
    {
        self.closed.len()
    }

    /// Closes the open block, if there is one: its table takes the place of the node's earlier one.
    /// If memory runs out, the table is lost.
    pub fn close(&mut self) -> Result<(), NoMemory>
        ensures { OnOk result (self.new ≡ printed.closed_up self.old) }
    {
        match self.block.take() {
            Some(block) => put_table(&mut self.closed, block.node, block.rows),
            None => Ok(()),
        }
    }

    // Closes the open block, if there is one, and opens one of x.
    fn show(&mut self, x: u32) -> Result<(), ReadError>
        ensures done { OnOk result
            (printed.opened_at (printed.closed_up self.old) (Some x) ≡ Some self.new) }
        ensures bad { IsErrOf result ReadError.BadLine →
            printed.opened_at (printed.closed_up self.old) (Some x) ≡ None }
        ensures lines { OnOk result (self.new.lines ≡ self.old.lines) }
    {
        if self.close().is_err() {
            return Err(ReadError::NoMemory);
        }
        if !has_room(&self.closed, x) {
            return Err(ReadError::BadLine);
        }
        self.block = Some(OpenBlock {
            node: x,
            rows: BTreeMap::new(self.alloc),
        });
        Ok(())
    }

    // Reads the words after `show`.
    fn read_show(&mut self, words: Option<&[u8]>) -> Result<(), ReadError>
        ensures done { OnOk result
            (printed.show_line self.old (rest_parts 32 words.entry) ≡ Some self.new) }
        ensures bad { IsErrOf result ReadError.BadLine →
            printed.show_line self.old (rest_parts 32 words.entry) ≡ None }
        ensures lines { OnOk result (self.new.lines ≡ self.old.lines) }
    {
        let Some(words) = words else {
            return Err(ReadError::BadLine);
        };
        match cut(words, b' ') {
            (word, None) => match Addr::parse(word) {
                Some(addr) => self.show(addr.0),
                None => Err(ReadError::BadLine),
            },
            (_, Some(_)) => Err(ReadError::BadLine),
        }
    }

    // Reads a line whose first word isn't `show`.
    fn read_other(&mut self, line: &[u8]) -> Result<(), ReadError>
        requires { size_of self.old.closed + block_size self.old.block < self.old.lines }
        ensures done { OnOk result
            (printed.other_line self.old self.old.block line.now ≡ Some self.new) }
        ensures bad { IsErrOf result ReadError.BadLine →
            printed.other_line self.old self.old.block line.now ≡ None }
        ensures lines { OnOk result (self.new.lines ≡ self.old.lines) }
    {
        if !line.starts_with(b"  ") {
            return match self.close() {
                Ok(()) => Ok(()),
                Err(_) => Err(ReadError::NoMemory),
            };
        }
        match &mut self.block {
            Some(block) => read_inner(block, line),
            None => Ok(()),
        }
    }

    /// Reads one more line. After an error nothing is known of the tables.
    #[tactic(auto, using(crate::proofs::Lines::by_show, crate::proofs::Lines::by_other))]
    pub fn read(&mut self, line: &[u8]) -> Result<(), ReadError>
        requires { self.old.lines < most_lines }
        ensures done { OnOk result (printed.after_line self.old line.now ≡ Some self.new) }
        ensures bad { IsErrOf result ReadError.BadLine →
            printed.after_line self.old line.now ≡ None }
        ensures lines { OnOk result (self.new.lines ≡ self.old.lines + 1) }
    {
        self.lines += 1;
        let (word, words) = cut(line, b' ');
        if is_show(word) {
            self.read_show(words)
        } else {
            self.read_other(line)
        }
    }
}
