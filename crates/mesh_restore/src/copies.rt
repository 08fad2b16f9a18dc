//! The copies in flight.
ghost use Rattle.std.specs.Prelude.{◌≡◌, ◌<◌, ◌≤◌, [], length, IfOk, MatchResult, ◌&&◌};
ghost use Rattle.mesh_base.specs.declared.limits.TheConstants.{LONGEST_PACKET};
ghost use Rattle.mesh_radio.specs.Copies.{AreBefore};
ghost use Rattle.mesh_checkpoint.specs.Formats.{get_rising};
ghost use Rattle.mesh_checkpoint.specs.Checkpoint as model;
ghost use Rattle.mesh_restore.specs.Reading.{Reads, Refuses};
ghost use Rattle.mesh_restore.specs.RadioParts.{IsFlown, AreCopiesRead};

use crate::error::ReadError;
use mesh_base::{Bytes, Flying, NoMemory};
use mesh_checkpoint::reading::read_copy;
use mesh_radio::Radio;
use std::alloc::Global;

// A copy.
fn copy(alloc: Global, bytes: &[u8], nodes: u32, next: u64) -> Result<(Flying, &[u8]), ReadError>
    ensures value { Reads (λ x. (x.0, x.1.now)) result ((model.copy nodes next).get bytes.now) }
    ensures some { IfOk result (λ x. 1 ≤ x.0.id) }
    ensures old { IfOk result (λ x. x.0.id < next) }
    ensures from { IfOk result (λ x. x.0.from < nodes) }
    ensures to { IfOk result (λ x. x.0.to < nodes) }
    ensures short { IfOk result (λ x. length x.0.bytes ≤ LONGEST_PACKET) }
{
    let Some((seen, rest)) = read_copy(bytes, nodes, next) else {
        return Err(ReadError::Spelling);
    };
    let copy = Flying {
        id: seen.id,
        from: seen.from,
        to: seen.to,
        bytes: Bytes::copy_of(alloc, seen.bytes)?,
    };
    Ok((copy, rest))
}

// Puts a copy into the radio, unless it is from a node to itself. Answers whether it was put.
fn fly(radio: &mut Radio, copy: Flying) -> Result<bool, NoMemory>
    requires some { 1 ≤ copy.id }
    requires old { copy.id < radio.old.next_copy }
    requires last { AreBefore copy.id radio.old.flying }
    requires from { copy.from < radio.old.size }
    requires to { copy.to < radio.old.size }
    requires short { length copy.bytes ≤ LONGEST_PACKET }
    requires restored { radio.old.room ≡ 0 }
    ensures { IfOk result (IsFlown radio.old radio.new copy) }
{
    if copy.from == copy.to {
        return Ok(false);
    }
    radio.put(copy)?;
    Ok(true)
}

// Whether both hold.
fn both(first: bool, second: bool) -> bool
    ensures { result ≡ (first && second) }
{
    first && second
}

/// Puts `count` copies, by rising id, into a radio that has none, without those from a node to
/// itself. Answers whether there was no such copy, and the bytes after all of them.
pub(crate) fn fly_all<'b>(
    alloc: Global,
    radio: &mut Radio,
    count: u32,
    bytes: &'b [u8],
    nodes: u32,
    next: u64,
) -> Result<(bool, &'b [u8]), ReadError>
    requires size { radio.old.size ≡ nodes }
    requires next { radio.old.next_copy ≡ next }
    requires none { radio.old.flying ≡ [] }
    requires restored { radio.old.room ≡ 0 }
    ensures { let read = get_rising (λ c. c.id) (model.copy nodes next).get count 0 bytes.now in
        MatchResult result (λ x. AreCopiesRead read radio.old radio.new x.0 x.1.now)
        (λ e. Refuses e read) }
{
    let mut apart = true;
    let mut rest = bytes;
    let mut low = 0;
    for _ in 0..count {
        let (copy, behind) = copy(alloc, rest, nodes, next)?;
        if copy.id < low {
            return Err(ReadError::Spelling);
        }
        low = copy.id + 1;
        let between = fly(radio, copy)?;
        apart = both(apart, between);
        rest = behind;
    }
    Ok((apart, rest))
}
