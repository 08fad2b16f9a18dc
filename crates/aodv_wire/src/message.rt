//! The message of a packet.
use crate::data_packet::DataView;
use crate::route_error::RerrView;
use crate::route_reply::Rrep;
use crate::route_request::Rreq;

/// A message, without its sender.
#[derive(Drop)]
pub enum Message<'a> {
    Rreq(Rreq),
    Rrep(Rrep),
    Rerr(RerrView<'a>),
    Parcel(DataView<'a>),
}
