//! What one AODV node does with each message, with each datum given to it, and of its own accord
//! (AWN, arXiv 1312.7645, section 6; RFC 3561, section 6). A handler changes the node's core, and
//! leaves in `out` the packet that is cast; if a counter would overflow, it leaves the core as it
//! was.
#![tactic(auto)]

mod cores;
mod data;
mod discovery;
mod errors;
mod messages;
mod rerr;
mod routes;
mod rrep;
mod rreq;
mod unicast;

pub use cores::Core;
pub use data::{new_packet, on_data, take_datum};
pub use discovery::{may_ask, may_send, next_request, send_stored, start_request};
pub use errors::link_broken;
pub use messages::{Datum, Reply, Request};
pub use rerr::on_rerr;
pub use rrep::{on_rrep, take_reply};
pub use rreq::{has_seen, on_rreq, take_new_request, take_seen_request};
