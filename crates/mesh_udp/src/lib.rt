//! One router on a socket of this machine: the link to its peers, and the run of its script.
#![tactic(auto)]

mod top;
mod words;

pub use mesh_link::{Link, MemLink, SureLink, UdpLink};
pub use mesh_router::NodeStatus;
pub use top::node_run;
pub use words::port_of;
