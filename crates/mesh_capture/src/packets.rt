//! The packets that lines give.
ghost use Rattle.std.specs.Prelude.{◌≡◌, Some, None, IfOk, IsErrOf};
ghost use Rattle.mesh_base.specs.Parts.{rest_parts};
ghost use Rattle.mesh_lines.specs.Packets.{IsShort};
ghost use Rattle.mesh_capture.specs.Copies as copies;

use hex::FromHexError;
use mesh_base::{Bytes, LONGEST_PACKET};
use mesh_lines::{SharedPacket, are_addresses, is, is_address, is_hex, three, two};
use std::alloc::Global;
use thiserror::Error;

/// Why a line isn't read.
#[derive(Clone, Copy, Debug, PartialEq, Eq, Error)]
pub enum ReadError {
    /// No text of a run has this line at this point.
    #[error("the line is refused")]
    BadLine,
    /// Memory ran out, or a packet is shared so often that one more copy can't be counted.
    #[error("no memory for a packet")]
    NoMemory,
}

// Whether there are bytes, and no more than a mesh may send in one packet.
fn is_packet(bytes: &[u8]) -> bool
    ensures { result ≡ copies.is_packet bytes.now }
{
    !bytes.is_empty() && bytes.len() <= LONGEST_PACKET
}

// The same bytes, kept without memory of their own if they are few.
fn kept(bytes: Vec<u8>) -> Bytes
    ensures { result ≡ bytes.items }
{
    match Bytes::short(bytes.as_slice()) {
        Some(short) => short,
        None => Bytes::from_vec(bytes),
    }
}

// A packet of these bytes.
fn owned(alloc: Global, bytes: Bytes) -> Result<SharedPacket, ReadError>
    ensures done { IfOk result (λ packet. packet ≡ bytes) }
    ensures memory { ¬ IsErrOf result ReadError.BadLine }
{
    match SharedPacket::new(alloc, bytes) {
        Ok(packet) => Ok(packet),
        Err(_) => Err(ReadError::NoMemory),
    }
}

/// The packet that a word gives in hexadecimal.
pub fn packet_of(alloc: Global, word: &[u8]) -> Result<SharedPacket, ReadError>
    ensures done { IfOk result (λ packet. copies.packet_of word.now ≡ Some packet) }
    ensures bad { IsErrOf result ReadError.BadLine → copies.packet_of word.now ≡ None }
    ensures short { IfOk result IsShort }
{
    if !is_hex(word) {
        return Err(ReadError::BadLine);
    }
    match hex::decode(alloc, word) {
        Ok(bytes) if is_packet(bytes.as_slice()) => owned(alloc, kept(bytes)),
        Err(FromHexError::OutOfMemory) => Err(ReadError::NoMemory),
        _ => Err(ReadError::BadLine),
    }
}

// Whether the words are `one` and an address, or `many` and addresses.
fn are_receivers(kind: &[u8], receivers: &[u8]) -> bool
    ensures { result ≡ copies.are_receivers kind.now receivers.now }
{
    (is(kind, b"one") && is_address(receivers)) || (is(kind, b"many") && are_addresses(receivers))
}

/// The packet of a cast, by the words after `sent`.
pub fn cast_packet(alloc: Global, words: Option<&[u8]>) -> Result<SharedPacket, ReadError>
    ensures done { IfOk result (λ packet.
        copies.cast_packet (rest_parts 32 words.entry) ≡ Some packet) }
    ensures bad { IsErrOf result ReadError.BadLine →
        copies.cast_packet (rest_parts 32 words.entry) ≡ None }
    ensures short { IfOk result IsShort }
{
    if let Some((all, hex)) = two(words, b' ') {
        return if is(all, b"all") {
            packet_of(alloc, hex)
        } else {
            Err(ReadError::BadLine)
        };
    }
    match three(words, b' ') {
        Some((kind, receivers, hex)) if are_receivers(kind, receivers) => packet_of(alloc, hex),
        _ => Err(ReadError::BadLine),
    }
}

/// The packet for one more copy. This takes no memory: `NoMemory` is answered if the packet is
/// shared so often that one more copy can't be counted.
pub fn shared(packet: &SharedPacket) -> Result<SharedPacket, ReadError>
    ensures done { IfOk result (λ same. same ≡ packet.now) }
    ensures memory { ¬ IsErrOf result ReadError.BadLine }
{
    packet.share().ok_or(ReadError::NoMemory)
}
