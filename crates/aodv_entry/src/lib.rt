//! The entries of routing tables, their sequence numbers and quality, and the destinations that a
//! route error names, for a crate that needs nothing else of the router. `aodv_model` defines them
//! and has their laws.
#![tactic(auto)]

pub use aodv_model::{Dests, Entry, Flag, Known, better, inc, nsqn};
