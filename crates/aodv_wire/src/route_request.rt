//! The route request: RFC 3561 section 5.1.
ghost use Rattle.std.specs.Prelude.{◌≡◌, ◌<◌, ◌≤◌, length, Some, MatchResult};
ghost use Rattle.aodv_wire.specs.Encodes.{Encodes, refusal, encoding};
ghost use Rattle.aodv_wire.specs.Encodes as packets;
ghost use Rattle.aodv_wire.specs.declared.message.Message.TheVariants.{Rreq as a_rreq};

use crate::error::WireError;
use crate::field::{last_octet, line_at, put_first_line, put_line};
use crate::message::Message;
use mesh_base::{Addr, Packet};

/// The type of a route request.
pub(crate) const REQUEST: u8 = 1;

// The length of a route request in bytes.
const LENGTH: usize = 24;

// The flags that this profile leaves out: J, R, G and D.
const FLAGS_LEFT_OUT: u8 = 0xf0;

// U: the destination's number is unknown.
const UNKNOWN_NUMBER: u8 = 0x08;

/// A route request: RFC 3561 section 5.1. `dip` is the destination, `oip` the originator, and `dsn`
/// and `osn` are their sequence numbers.
#[derive(Clone, Copy, Debug, PartialEq, Eq)]
pub struct Rreq {
    pub hops: u8,
    pub id: u32,
    pub dip: Addr,
    pub dsn: u32,
    /// Whether the destination's number is known. Even if it isn't, `dsn` may be other than 0.
    pub known: bool,
    pub oip: Addr,
    pub osn: u32,
}

/// Reads a packet of this type.
#[tactic(auto, unfolding(crate::specs::Encodes::refusal, crate::specs::Encodes::message_in_fields))]
pub(crate) fn read_rreq(bytes: &[u8]) -> Result<Message<'_>, WireError>
    requires some { 0 < length bytes.now }
    requires kind { packets.kind bytes.now ≡ 1 }
    ensures { MatchResult result (Encodes bytes.now) (λ e. refusal bytes.now ≡ Some e) }
{
    if bytes.len() != LENGTH {
        return Err(WireError::WrongLength);
    }
    if bytes[1] & FLAGS_LEFT_OUT != 0 {
        return Err(WireError::OutsideProfile);
    }
    let osn = line_at(bytes, 5);
    if osn == 0 {
        return Err(WireError::ZeroNumber);
    }
    Ok(Message::Rreq(Rreq {
        hops: last_octet(bytes),
        id: line_at(bytes, 1),
        dip: Addr(line_at(bytes, 2)),
        dsn: line_at(bytes, 3),
        known: bytes[1] & UNKNOWN_NUMBER == 0,
        oip: Addr(line_at(bytes, 4)),
        osn,
    }))
}

/// Writes a route request in place of what `out` held: RFC 3561 section 5.1.
#[inline(always)]
pub fn write_rreq(m: &Rreq, out: &mut Packet)
    requires { 1 ≤ m.now.osn }
    ensures written { out.new.items ≡ encoding (a_rreq m.now) }
    ensures encodes { Encodes out.new.items (a_rreq m.now) }
{
    let flags = if m.known { 0 } else { UNKNOWN_NUMBER };
    out.clear();
    put_first_line(out, REQUEST, flags, m.hops);
    put_line(out, m.id);
    put_line(out, m.dip.0);
    put_line(out, m.dsn);
    put_line(out, m.oip.0);
    put_line(out, m.osn);
}
