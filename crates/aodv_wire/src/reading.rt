//! Reading a packet of any type.
ghost use Rattle.std.specs.Prelude.{◌≡◌, Some, Ok, MatchResult};
ghost use Rattle.aodv_wire.specs.declared.message.Message.{Message as a_message};
ghost use Rattle.aodv_wire.specs.Encodes.{Encodes, refusal};

use crate::data_packet::{DATA, read_data};
use crate::error::WireError;
use crate::field::kind;
use crate::message::Message;
use crate::route_error::{ERROR, read_rerr};
use crate::route_reply::{REPLY, read_rrep};
use crate::route_request::{REQUEST, read_rreq};

/// The message that the bytes encode, or the first reason why they encode none. Any bytes will do.
#[tactic(auto, unfolding(crate::specs::Encodes::refusal))]
#[inline(always)]
pub fn read(bytes: &[u8]) -> Result<Message<'_>, WireError>
    ensures exact { MatchResult result (Encodes bytes.now) (λ e. refusal bytes.now ≡ Some e) }
    // if the bytes encode a message, that one is the answer
    ensures only { (m : a_message) → Encodes bytes.now m → result ≡ Ok m }
{
    if bytes.is_empty() {
        return Err(WireError::Short);
    }
    match kind(bytes) {
        REQUEST => read_rreq(bytes),
        REPLY => read_rrep(bytes),
        ERROR => read_rerr(bytes),
        DATA => read_data(bytes),
        other => Err(WireError::UnknownType(other)),
    }
}
