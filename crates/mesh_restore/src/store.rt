//! The data that wait for a route.
ghost use Rattle.std.specs.Prelude.{◌≡◌, ◌<◌, ◌≤◌, ◌+◌, MatchResult, IfOk, length, Some};
ghost use Rattle.mesh_base.specs.declared.limits.TheConstants.{MOST_NODES};
ghost use Rattle.mesh_checkpoint.specs.Formats.{get_rising, get_times};
ghost use Rattle.mesh_checkpoint.specs.Checkpoint as model;
ghost use Rattle.mesh_restore.specs.Reading.{Reads, Refuses, get_from};
ghost use Rattle.mesh_checkpoint.specs.Points.{waits_in};
ghost use Rattle.mesh_restore.specs.Stores.{with_need, AreBelow};
ghost use Rattle.mesh_restore.specs.Kept.{IsFilled, IsKeptFrom};

use crate::error::ReadError;
use aodv_waiting::Waiting;
use mesh_base::Bytes;
use mesh_checkpoint::END16;
use mesh_checkpoint::numbers::number16;
use mesh_checkpoint::reading::{read_datum, read_waits_head};
use std::alloc::Global;

// Reads `count` data for one destination, which had none before. Answers the bytes after them.
fn bodies<'b>(
    alloc: Global,
    waiting: &mut Waiting,
    dest: usize,
    count: u32,
    bytes: &'b [u8],
) -> Result<&'b [u8], ReadError>
    requires dest { dest < length waiting.old.rooms }
    requires below { AreBelow dest waiting.old.store }
    ensures data { let read = get_times model.datum.get count bytes.now in
        MatchResult result (λ x. IsFilled waiting.old.store dest count read waiting.new.store x.now)
        (λ e. Refuses e read) }
    ensures nodes { length waiting.new.rooms ≡ length waiting.old.rooms }
{
    let mut rest = bytes;
    for _ in 0..count {
        let Some((body, behind)) = read_datum(rest) else {
            return Err(ReadError::Spelling);
        };
        let body = Bytes::copy_of(alloc, body)?;
        waiting.make_room(dest)?;
        waiting.add(dest, body);
        rest = behind;
    }
    Ok(rest)
}

// Data that have just come are marked as needing a request. Removes the mark, unless they need one.
fn settle(waiting: &mut Waiting, dest: usize, needs_request: bool)
    requires { dest < length waiting.old.rooms }
    ensures store { waiting.new.store ≡ with_need waiting.old.store dest needs_request }
    ensures nodes { length waiting.new.rooms ≡ length waiting.old.rooms }
{
    if !needs_request {
        waiting.unset_req(dest);
    }
}

// Reads what waits for one destination, which is at least `low`. Answers the destination and the
// bytes after its data.
fn waits<'b>(
    alloc: Global,
    waiting: &mut Waiting,
    low: usize,
    bytes: &'b [u8],
    nodes: u32,
) -> Result<(usize, &'b [u8]), ReadError>
    requires nodes { length waiting.old.rooms ≡ nodes }
    requires below { AreBelow low waiting.old.store }
    ensures read { let read = get_from (λ w. w.dest) (model.waits nodes).get low bytes.now in
        MatchResult result (λ x. IsKeptFrom read waiting.old.store waiting.new.store x.0 x.1.now)
        (λ e. Refuses e read) }
    ensures nodes { length waiting.new.rooms ≡ length waiting.old.rooms }
    ensures dest { IfOk result (λ x. x.0 < nodes) }
{
    let Some((head, rest)) = read_waits_head(bytes, nodes) else {
        return Err(ReadError::Spelling);
    };
    if head.dest < low {
        return Err(ReadError::Spelling);
    }
    let rest = bodies(alloc, waiting, head.dest, head.data, rest)?;
    settle(waiting, head.dest, head.needs_request);
    Ok((head.dest, rest))
}

// What waits for `count` destinations, by rising destination, and the bytes after it.
fn rows(alloc: Global, count: u16, bytes: &[u8], nodes: u32) -> Result<(Waiting, &[u8]), ReadError>
    requires { nodes ≤ MOST_NODES }
    ensures value { Reads (λ x. (waits_in x.0.store, x.1.now)) result
        (get_rising (λ w. w.dest) (model.waits nodes).get count 0 bytes.now) }
    ensures nodes { IfOk result (λ x. length x.0.rooms ≡ nodes) }
{
    let mut waiting = Waiting::new(alloc, nodes as usize)?;
    let mut rest = bytes;
    let mut low = 0;
    for _ in 0..count {
        let (dest, behind) = waits(alloc, &mut waiting, low, rest, nodes)?;
        low = dest + 1;
        rest = behind;
    }
    Ok((waiting, rest))
}

/// The store at the start of the bytes, in a mesh of this many nodes, and the bytes after it.
pub(crate) fn store(alloc: Global, bytes: &[u8], nodes: u32) -> Result<(Waiting, &[u8]), ReadError>
    requires { nodes ≤ MOST_NODES }
    ensures value { Reads (λ x. (waits_in x.0.store, x.1.now)) result
        ((model.store nodes).get bytes.now) }
    ensures nodes { IfOk result (λ x. length x.0.rooms ≡ nodes) }
{
    let Some((count, rest)) = number16(bytes, 0, END16) else {
        return Err(ReadError::Spelling);
    };
    rows(alloc, count, rest, nodes)
}
