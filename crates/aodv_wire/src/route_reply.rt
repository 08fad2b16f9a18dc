//! The route reply: RFC 3561 section 5.2.
ghost use Rattle.std.specs.Prelude.{◌≡◌, ◌<◌, ◌≤◌, length, Some, MatchResult};
ghost use Rattle.aodv_wire.specs.Encodes.{Encodes, refusal, encoding};
ghost use Rattle.aodv_wire.specs.Encodes as packets;
ghost use Rattle.aodv_wire.specs.declared.message.Message.TheVariants.{Rrep as a_rrep};

use crate::error::WireError;
use crate::field::{last_octet, line_at, put_first_line, put_line};
use crate::message::Message;
use mesh_base::{Addr, Packet};

/// The type of a route reply.
pub(crate) const REPLY: u8 = 2;

// The length of a route reply in bytes.
const LENGTH: usize = 20;

// The flags that this profile leaves out: R and A.
const FLAGS_LEFT_OUT: u8 = 0xc0;

// The prefix size, in the third byte: 0 in this profile.
const PREFIX_SIZE: u8 = 0x1f;

// The lifetime that is written, in milliseconds: the longest.
const LIFETIME: u32 = u32::MAX;

/// A route reply: RFC 3561 section 5.2. `dip` is the destination that was asked for, `dsn` its
/// number, and `oip` the address that asked.
#[derive(Clone, Copy, Debug, PartialEq, Eq)]
pub struct Rrep {
    pub hops: u8,
    pub dip: Addr,
    pub dsn: u32,
    pub oip: Addr,
}

/// Reads a packet of this type.
#[tactic(auto, unfolding(crate::specs::Encodes::refusal, crate::specs::Encodes::message_in_fields))]
pub(crate) fn read_rrep(bytes: &[u8]) -> Result<Message<'_>, WireError>
    requires some { 0 < length bytes.now }
    requires kind { packets.kind bytes.now ≡ 2 }
    ensures { MatchResult result (Encodes bytes.now) (λ e. refusal bytes.now ≡ Some e) }
{
    if bytes.len() != LENGTH {
        return Err(WireError::WrongLength);
    }
    if bytes[1] & FLAGS_LEFT_OUT != 0 || bytes[2] & PREFIX_SIZE != 0 {
        return Err(WireError::OutsideProfile);
    }
    let dsn = line_at(bytes, 2);
    if dsn == 0 {
        return Err(WireError::ZeroNumber);
    }
    Ok(Message::Rrep(Rrep {
        hops: last_octet(bytes),
        dip: Addr(line_at(bytes, 1)),
        dsn,
        oip: Addr(line_at(bytes, 3)),
    }))
}

/// Writes a route reply in place of what `out` held: RFC 3561 section 5.2. Its lifetime is the
/// longest.
pub fn write_rrep(m: &Rrep, out: &mut Packet)
    requires { 1 ≤ m.now.dsn }
    ensures written { out.new.items ≡ encoding (a_rrep m.now) }
    ensures encodes { Encodes out.new.items (a_rrep m.now) }
{
    out.clear();
    put_first_line(out, REPLY, 0, m.hops);
    put_line(out, m.dip.0);
    put_line(out, m.dsn);
    put_line(out, m.oip.0);
    put_line(out, LIFETIME);
}
