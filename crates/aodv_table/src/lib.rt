//! Routing tables: the trait `Table`, which says what a table does however it keeps its entries,
//! and two tables: one with a row for every node, and one over an ordered map, which takes memory
//! only for the destinations that it was given room for (RFC 3561, section 2; AWN's functions on
//! routing tables). Room for an entry is made before the entry comes, so that changing entries
//! takes no memory.
#![tactic(auto)]

mod merge;
mod plain;
mod row;
mod row_list;
mod rows;
mod table;

pub use plain::PlainTable;
pub use rows::RowTable;
pub use table::Table;
