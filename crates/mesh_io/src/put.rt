//! Writing a whole piece.
ghost use Rattle.std.specs.Prelude.{◌≡◌, ◌≤◌, ◌<◌, length, take};
ghost use Rattle.std.specs.Io.KnownBytes.{Appends};
ghost use Rattle.mesh_io.specs.Cause.{HasCause, Rose};
ghost use Rattle.mesh_io.specs.Puts.{Puts};

use crate::sink::Sink;
use thiserror::Error;

/// A sink has failed.
#[derive(Clone, Copy, Debug, PartialEq, Eq, Error)]
#[error("a write failed")]
pub struct PutFault;

/// Writes the piece up to its end or the first fault, and returns how many bytes were written.
pub fn put_prefix<O: Sink>(out: &mut O, piece: &[u8]) -> usize
    ensures within { result ≤ length piece.now }
    ensures text { Appends (O.held out.old) (O.held out.new) (take result piece.now) }
    ensures later { O.faults out.old ≤ O.faults out.new }
    ensures failed { result < length piece.now → Rose (O.faults out.old) (O.faults out.new) }
    ensures none { result ≡ length piece.now → O.faults out.new ≡ O.faults out.old }
    ensures empty { length piece.now ≡ 0 → out.new ≡ out.old }
{
    let mut written = 0;
    while written < piece.len() {
        match out.put(&piece[written..]) {
            Ok(n) => written += n,
            Err(_) => return written,
        }
    }
    written
}

// Writes the whole piece, or a prefix of it if the sink fails, in as many calls as that takes.
#[inline(never)]
pub(crate) fn put_in_parts<O: Sink>(out: &mut O, piece: &[u8]) -> Result<(), PutFault>
    ensures text { Puts (O.held out.old) (O.held out.new) piece.now result }
    ensures cause { HasCause (O.faults out.old) (O.faults out.new) result }
{
    if put_prefix(out, piece) < piece.len() {
        return Err(PutFault);
    }
    Ok(())
}

/// Writes the whole piece, or a prefix of it if the sink fails. An empty piece takes no call, and
/// most others take one.
pub fn put_all<O: Sink>(out: &mut O, piece: &[u8]) -> Result<(), PutFault>
    ensures text { Puts (O.held out.old) (O.held out.new) piece.now result }
    ensures cause { HasCause (O.faults out.old) (O.faults out.new) result }
    ensures empty { length piece.now ≡ 0 → out.new ≡ out.old }
{
    if piece.is_empty() {
        return Ok(());
    }
    match out.put(piece) {
        Ok(n) if n == piece.len() => Ok(()),
        Ok(n) => put_in_parts(out, &piece[n..]),
        Err(_) => Err(PutFault),
    }
}
