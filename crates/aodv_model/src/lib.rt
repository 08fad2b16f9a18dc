//! One AODV node. The definitions are of its table, its messages, its state, and what it does in
//! one step. They follow RFC 3561 and AWN (arXiv 1312.7645). The code of the router and its packets
//! is in other crates, whose contracts say that it does what is defined here. The code in this
//! crate is for entries of routing tables, their sequence numbers and quality, and lists of
//! destinations with a number each.
#![tactic(auto)]

mod dests;
mod entry;
pub mod laws;
mod number;

pub use dests::Dests;
pub use entry::{Entry, Flag, Known};
pub use number::{better, inc, nsqn};
