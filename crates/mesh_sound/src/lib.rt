//! Whether nodes and a radio, however they came to be, are in order as a world of their mesh: all
//! packets are written of messages of the mesh, requests and replies say of other nodes no more
//! than their senders' tables have, and each valid route is backed by its next hop. Nothing is
//! changed, and no memory is taken.
#![tactic(auto)]

mod edges;
mod honest;
mod packets;
mod written;

pub use edges::first_edge;
pub use packets::{Claim, holds_of_all};
