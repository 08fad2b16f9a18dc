//! The route error: RFC 3561 section 5.3. Its view borrows the packet that it was read from.
ghost use Rattle.std.specs.Prelude.{◌≡◌, ◌<◌, ◌≤◌, ◌==◌, length, slice_get, take, Some, MatchResult};
ghost use Rattle.std.specs.List.{list_any};
ghost use Rattle.aodv_wire.specs.RouteError.{addresses, repeated_address, AreDestinations};
ghost use Rattle.aodv_wire.specs.Encodes.{Encodes, refusal, encoding};
ghost use Rattle.aodv_wire.specs.Encodes as packets;
ghost use Rattle.aodv_wire.specs.declared.message.Message.TheVariants.{Rerr as a_rerr};

use crate::error::WireError;
use crate::field::{last_octet, line_at, put_first_line, put_line};
use crate::message::Message;
use mesh_base::{Addr, Packet};
use std::marker::Model;

/// The type of a route error.
pub(crate) const ERROR: u8 = 3;

// The number of bytes before the pairs, and of those in a pair.
const FIRST_LINE: usize = 4;

const PAIR: usize = 8;

// N, no delete: this profile leaves it out.
const NO_DELETE: u8 = 0x80;

/// A route error, RFC 3561 section 5.3: pairs of a destination and its number, as they lie in the
/// packet.
#[derive(Drop)]
pub struct RerrView<'a> {
    pub(crate) lines: &'a [u8],
}

impl<'a> Model for RerrView<'a> {
    ghost use Rattle.std.specs.Prelude.{◌≡◌, ◌≤◌, ◌*◌, ◌/◌, ℕ, List, length};
    ghost use Rattle.mesh_base.specs.declared.addr.Addr.{Addr};
    ghost use Rattle.aodv_wire.specs.RouteError.{pairs};

    ghost Value = { List (Addr × ℕ) };

    ghost view = { λ v. pairs (length v.lines.now / 8) v.lines.now };

    ghost invariant = { λ v. (length v.lines.now ≡ 8 * (length v.lines.now / 8))
        × (length v.lines.now / 8 ≤ 255) };
}

impl RerrView<'_> {
    /// How many pairs there are.
    #[tactic(auto, using(crate::proofs::Pairs::length_pairs))]
    pub fn len(&self) -> usize
        ensures count { result ≡ length self.now }
        ensures few { result ≤ 255 }
    {
        self.lines.len() / PAIR
    }

    /// Pair k, in packet order.
    #[tactic(auto, using(crate::proofs::Pairs::length_pairs, crate::proofs::Pairs::pair_at))]
    pub fn pair(&self, k: usize) -> (Addr, u32)
        requires { k < length self.now }
        ensures { slice_get self.now k ≡ Some result }
    {
        let lines = self.lines;
        // This tells the prover that the lines have fewer than 2^64 bytes.
        let _len = lines.len();
        (Addr(line_at(lines, 2 * k)), line_at(lines, 2 * k + 1))
    }

    // The address of pair k.
    #[tactic(auto, using(crate::proofs::Pairs::length_pairs, crate::proofs::Pairs::address_at))]
    fn address(&self, k: usize) -> Addr
        requires { k < length self.now }
        ensures { slice_get (addresses self.now) k ≡ Some result }
    {
        let lines = self.lines;
        // This tells the prover that the lines have fewer than 2^64 bytes.
        let _len = lines.len();
        Addr(line_at(lines, 2 * k))
    }

    // Whether one of the first k pairs has this address.
    fn has_before(&self, k: usize, a: Addr) -> bool
        requires { k ≤ length self.now }
        ensures { result ≡ list_any (λ s. s.0 == a.0) (take k (addresses self.now)) }
    {
        for j in 0..k {
            if self.address(j) == a {
                return true;
            }
        }
        false
    }

    // The first address that an earlier pair has too. An address above all earlier ones isn't
    // looked for among them, so pairs in rising order are read once.
    pub(crate) fn repeated_address(&self) -> Option<Addr>
        ensures { result ≡ repeated_address self.now }
    {
        let mut above: u64 = 0;
        for k in 0..self.len() {
            let a = self.address(k);
            let number = u64::from(a.0);
            if number >= above {
                above = number + 1;
            } else if self.has_before(k, a) {
                return Some(a);
            }
        }
        None
    }
}

/// Reads a packet of this type.
#[tactic(auto, unfolding(crate::specs::Encodes::refusal, crate::specs::Encodes::message_in_fields))]
pub(crate) fn read_rerr(bytes: &[u8]) -> Result<Message<'_>, WireError>
    requires some { 0 < length bytes.now }
    requires kind { packets.kind bytes.now ≡ 3 }
    ensures { MatchResult result (Encodes bytes.now) (λ e. refusal bytes.now ≡ Some e) }
{
    let len = bytes.len();
    if len < FIRST_LINE {
        return Err(WireError::WrongLength);
    }
    let count = last_octet(bytes);
    if len != FIRST_LINE + PAIR * usize::from(count) {
        return Err(WireError::WrongLength);
    }
    if bytes[1] & NO_DELETE != 0 {
        return Err(WireError::OutsideProfile);
    }
    if count == 0 {
        return Err(WireError::NoDestinations);
    }
    let (_, lines) = bytes.split_at(FIRST_LINE);
    let view = RerrView { lines };
    match view.repeated_address() {
        Some(a) => Err(WireError::Repeated(a)),
        None => Ok(Message::Rerr(view)),
    }
}

/// Writes a route error in place of what `out` held: RFC 3561 section 5.3. The 1 to 200 addresses
/// are in rising order.
pub fn write_rerr(pairs: &[(Addr, u32)], out: &mut Packet)
    requires { AreDestinations pairs.now }
    ensures written { out.new.items ≡ encoding (a_rerr pairs.now) }
    ensures encodes { Encodes out.new.items (a_rerr pairs.now) }
{
    out.clear();
    put_first_line(out, ERROR, 0, pairs.len() as u8);
    for (a, number) in pairs {
        put_line(out, a.0);
        put_line(out, *number);
    }
}
