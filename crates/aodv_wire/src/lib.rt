//! The packets of AODV as bytes: route requests, replies and errors as RFC 3561 section 5 lays them
//! out, and this project's own data packet. The reader takes any bytes. Each writer writes one
//! encoding of its message, from which the reader gets that message back.
#![tactic(auto)]

mod data_packet;
mod error;
mod field;
mod laws;
mod message;
mod reading;
mod route_error;
mod route_reply;
mod route_request;

pub use data_packet::{DataView, is_data, write_data};
pub use error::WireError;
pub use laws::{each_bit_once, one_message, repeated_is_first};
pub use message::Message;
pub use reading::read;
pub use route_error::{RerrView, write_rerr};
pub use route_reply::{Rrep, write_rrep};
pub use route_request::{Rreq, write_rreq};
