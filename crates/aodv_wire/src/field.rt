//! The lines of a packet, and the fields of its first one: read, and written.
ghost use Rattle.std.specs.Prelude.{◌≡◌, ◌+◌, ◌*◌, ◌≤◌, ◌<◌, ◌^◌, [], ◌∷◌, ◌++◌, length};
ghost use Rattle.byteorder.specs.Endian.{big_bytes};
ghost use Rattle.aodv_wire.specs.Layout.{number_at, field_at};

use byteorder::{BigEndian, ByteOrder};
use mesh_base::{LONGEST_PACKET, Packet};

/// The number in a whole line.
pub(crate) fn line_at(bytes: &[u8], line: usize) -> u32
    requires { 4 * line + 4 ≤ length bytes.now }
    ensures { result ≡ number_at bytes.now (field_at line 0 32) }
{
    // This tells the prover that there are fewer than 2^64 bytes, so that their indices fit a
    // usize.
    let _len = bytes.len();
    let (_, rest) = bytes.split_at(4 * line);
    BigEndian::read_u32(rest)
}

/// The number in the first eight bits of the first line.
pub(crate) fn kind(bytes: &[u8]) -> u8
    requires { 0 < length bytes.now }
    ensures { result ≡ number_at bytes.now (field_at 0 0 8) }
{
    bytes[0]
}

/// The number in the last eight bits of the first line.
pub(crate) fn last_octet(bytes: &[u8]) -> u8
    requires { 4 ≤ length bytes.now }
    ensures { result ≡ number_at bytes.now (field_at 0 24 8) }
{
    bytes[3]
}

/// Appends bytes to what is written.
pub(crate) fn put_bytes(out: &mut Packet, bytes: &[u8])
    requires { length out.old.items + length bytes.now ≤ LONGEST_PACKET }
    ensures { out.new.items ≡ out.old.items ++ bytes.now }
{
    if out.try_extend_from_slice(bytes).is_err() {
        unreachable!();
    }
}

/// Appends the first line: a type, its flags, eight bits that are 0, and eight more.
pub(crate) fn put_first_line(out: &mut Packet, kind: u8, flags: u8, last: u8)
    requires { length out.old.items + 4 ≤ LONGEST_PACKET }
    ensures bytes { out.new.items ≡ out.old.items ++ kind ∷ flags ∷ 0 ∷ last ∷ [] }
    ensures fits { last < 2 ^ 8 }
{
    put_bytes(out, &[kind, flags, 0, last]);
}

/// Appends a number as a line.
pub(crate) fn put_line(out: &mut Packet, number: u32)
    requires { length out.old.items + 4 ≤ LONGEST_PACKET }
    ensures bytes { out.new.items ≡ out.old.items ++ big_bytes 4 number }
    ensures fits { number < 2 ^ 32 }
{
    let mut bytes = [0; 4];
    BigEndian::write_u32(&mut bytes, number);
    put_bytes(out, &bytes);
}
