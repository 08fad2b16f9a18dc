//! Links, which carry datagrams between the ports of this machine: over a socket, and in memory,
//! with failures by plan or none. A link counts its faults, and each refusal has a fault as its
//! cause.
#![tactic(auto)]

mod link;
mod mem;
mod sure;
mod udp;

pub use link::Link;
pub use mem::MemLink;
pub use sure::SureLink;
pub use udp::UdpLink;
