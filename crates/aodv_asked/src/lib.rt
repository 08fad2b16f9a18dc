//! The route requests that a node has seen: for each its originator and its id (RFC 3561, sections
//! 6.3 and 6.5; AWN's rreqs). Each originator's ids are kept as intervals, so that a run of
//! consecutive ids takes no more memory than a single id.
#![tactic(auto)]

mod asked;
mod chunks;
mod ids;
mod interval;
mod intervals;

pub use asked::Asked;
