//! The routing tables that a printed text shows, and whether they are sound: whether each next hop
//! that isn't the destination, and was shown with a valid entry for it, has the better entry. Sound
//! tables have no cycle of next hops. Nothing here depends on where a text comes from: tables of
//! any router can be printed in this form.
//!
//! An address is kept as its number, so that addresses have the order that they have in a mesh.
#![tactic(auto)]

mod entry_line;
pub mod laws;
mod printed;
mod row;
mod search;

pub use printed::{PrintedTables, ReadError};
pub use row::Row;
pub use search::FailingEdge;
