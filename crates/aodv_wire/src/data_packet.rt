//! This project's packet that carries a datum. Its view borrows the packet that it was read from.
ghost use Rattle.std.specs.Prelude.{◌≡◌, ◌<◌, ◌≤◌, length, Some, MatchResult};
ghost use Rattle.aodv_wire.specs.Encodes.{Encodes, is_data, refusal, encoding};
ghost use Rattle.aodv_wire.specs.Encodes as packets;
ghost use Rattle.aodv_wire.specs.declared.message.Message.TheVariants.{Parcel as a_parcel};

use crate::error::WireError;
use crate::field::{line_at, put_bytes, put_first_line, put_line};
use crate::message::Message;
use mesh_base::{Addr, LONGEST_DATUM, Packet};
use std::marker::Model;

/// The type of a data packet.
pub(crate) const DATA: u8 = 16;

// The number of bytes before the datum.
const HEAD: usize = 12;

/// A datum on its way, with its destination and its originator.
#[derive(Drop)]
pub struct DataView<'a> {
    pub(crate) dip: Addr,
    pub(crate) oip: Addr,
    pub(crate) body: &'a [u8],
}

impl<'a> Model for DataView<'a> {
    ghost use Rattle.std.specs.Prelude.{◌≤◌, length};
    ghost use Rattle.mesh_base.specs.declared.limits.TheConstants.{LONGEST_DATUM};
    ghost use Rattle.aodv_wire.specs.DataPacket.{Datum};

    ghost Value = { Datum };

    ghost view = { λ v. record { dip = v.dip; oip = v.oip; body = v.body.now } };

    ghost invariant = { λ v. (1 ≤ length v.body.now) × (length v.body.now ≤ LONGEST_DATUM) };
}

impl<'a> DataView<'a> {
    /// The destination.
    pub fn dip(&self) -> Addr
        ensures { result ≡ self.now.dip }
    {
        self.dip
    }

    /// The originator.
    pub fn oip(&self) -> Addr
        ensures { result ≡ self.now.oip }
    {
        self.oip
    }

    /// The bytes carried, which outlive this view.
    pub fn body(&self) -> &'a [u8]
        ensures bytes { result.now ≡ self.now.body }
        ensures some { 1 ≤ length result.now }
        ensures few { length result.now ≤ LONGEST_DATUM }
    {
        self.body
    }
}

/// Whether the packet's type is that of a data packet.
pub fn is_data(packet: &[u8]) -> bool
    ensures { result ≡ is_data packet.now }
{
    !packet.is_empty() && packet[0] == DATA
}

/// Reads a packet of this type.
#[tactic(auto, unfolding(crate::specs::Encodes::refusal, crate::specs::Encodes::message_in_fields))]
pub(crate) fn read_data(bytes: &[u8]) -> Result<Message<'_>, WireError>
    requires some { 0 < length bytes.now }
    requires kind { packets.kind bytes.now ≡ 16 }
    ensures { MatchResult result (Encodes bytes.now) (λ e. refusal bytes.now ≡ Some e) }
{
    if bytes.len() <= HEAD || bytes.len() > HEAD + LONGEST_DATUM {
        return Err(WireError::WrongLength);
    }
    if bytes[1] != 0 || bytes[2] != 0 || bytes[3] != 0 {
        return Err(WireError::BadData);
    }
    let (_, body) = bytes.split_at(HEAD);
    Ok(Message::Parcel(DataView {
        dip: Addr(line_at(bytes, 1)),
        oip: Addr(line_at(bytes, 2)),
        body,
    }))
}

/// Writes a datum of 1 to 512 bytes in place of what `out` held.
pub fn write_data(dip: Addr, oip: Addr, body: &[u8], out: &mut Packet)
    requires some { 1 ≤ length body.now }
    requires few { length body.now ≤ LONGEST_DATUM }
    ensures written { out.new.items
        ≡ encoding (a_parcel (record { dip = dip; oip = oip; body = body.now })) }
    ensures encodes { Encodes out.new.items
        (a_parcel (record { dip = dip; oip = oip; body = body.now })) }
{
    out.clear();
    put_first_line(out, DATA, 0, 0);
    put_line(out, dip.0);
    put_line(out, oip.0);
    put_bytes(out, body);
}
