//! Passing over a body.
ghost use Rattle.std.specs.Prelude.{◌<◌, ◌==◌, length, not, option_map, IfSome};
ghost use Rattle.mesh_checkpoint.specs.Heads.{AreSums};
ghost use Rattle.mesh_checkpoint.specs.Formats.{maybe};
ghost use Rattle.mesh_checkpoint.specs.Checkpoint as model;
ghost use Rattle.mesh_checkpoint.specs.Counts as counts;
ghost use Rattle.mesh_checkpoint.specs.Reading.{Gives, Passes, PassesBody};

use crate::limits::{END16, END32, GREATEST_NEXT_ID, MOST_STEPS, NODES_END, SUMS_END};
use crate::numbers::{byte, number16, number32, number64};
use crate::part::{pass_all, pass_rising};
use crate::parts::{InFlight, Link, Node, Station};
use mesh_base::Variant;

/// The head of a body: the variant of the protocol, how many lines were read, and the sums of the
/// run.
#[derive(Clone, Copy, PartialEq, Eq)]
pub struct Head {
    pub variant: Variant,
    pub lines: u64,
    pub events: u64,
    pub idle: u64,
    pub given: u64,
    pub delivered: u64,
    pub lost: u64,
    pub copied: u64,
}

// A variant, as a byte.
fn read_variant(bytes: &[u8]) -> Option<(Variant, &[u8])>
    ensures value { Gives (λ x. (x.0, x.1.now)) result (model.variant.get bytes.now) }
    ensures shorter { IfSome result (λ x. length x.1.now < length bytes.now) }
{
    let (number, rest) = byte(bytes, 0, 4)?;
    let variant = match number {
        0 => Variant::Base,
        1 => Variant::Number,
        2 => Variant::Reply,
        _ => Variant::Error,
    };
    Some((variant, rest))
}

/// The head at the start of the bytes, and the bytes after it.
pub fn read_head(bytes: &[u8]) -> Option<(Head, &[u8])>
    ensures value { Gives (λ x. (x.0, x.1.now)) result (model.head.get bytes.now) }
    ensures shorter { IfSome result (λ x. length x.1.now < length bytes.now) }
    ensures below { IfSome result (λ x. AreSums x.0) }
{
    let (variant, rest) = read_variant(bytes)?;
    let (lines, rest) = number64(rest, 0, SUMS_END)?;
    let (events, rest) = number64(rest, 0, SUMS_END)?;
    let (idle, rest) = number64(rest, 0, SUMS_END)?;
    let (given, rest) = number64(rest, 0, SUMS_END)?;
    let (delivered, rest) = number64(rest, 0, SUMS_END)?;
    let (lost, rest) = number64(rest, 0, SUMS_END)?;
    let (copied, rest) = number64(rest, 0, SUMS_END)?;
    let head = Head {
        variant,
        lines,
        events,
        idle,
        given,
        delivered,
        lost,
        copied,
    };
    Some((head, rest))
}

// Passes over a world of this many nodes: how many data it has, and the bytes after it.
fn pass_world(bytes: &[u8], nodes: u32) -> Option<(u64, &[u8])>
    ensures { Passes (model.world nodes) counts.data_in_world bytes.now
        (option_map (λ x. (x.0, x.1.now)) result) }
{
    let (_steps, rest) = number64(bytes, 0, MOST_STEPS + 1)?;
    let (at_nodes, rest) = pass_all(&Node { nodes }, nodes, rest)?;
    let (count, rest) = number16(rest, 0, END16)?;
    let (_, rest) = pass_rising(&Link { nodes }, u32::from(count), rest)?;
    let (next, rest) = number64(rest, 1, GREATEST_NEXT_ID + 1)?;
    let (count, rest) = number32(rest, 0, END32)?;
    let (flying, rest) = pass_rising(&InFlight { nodes, next }, count, rest)?;
    Some((at_nodes + flying, rest))
}

// Passes over a world, if there is one, after the byte that says whether there is.
fn pass_maybe_world(bytes: &[u8], nodes: u32) -> Option<(u64, &[u8])>
    ensures { Passes (maybe (not (nodes == 0)) (model.world nodes)) counts.data_in bytes.now
        (option_map (λ x. (x.0, x.1.now)) result) }
{
    let (there, rest) = byte(bytes, 0, 2)?;
    if there == 0 {
        return Some((0, rest));
    }
    if nodes == 0 {
        return None;
    }
    pass_world(rest, nodes)
}

/// Passes over a body: its head, how many data it has, and the bytes after it.
pub(crate) fn pass_body(bytes: &[u8]) -> Option<(Head, u64, &[u8])>
    ensures body { PassesBody bytes.now (option_map (λ x. (x.0, x.1, x.2.now)) result) }
    ensures below { IfSome result (λ x. AreSums x.0) }
{
    let (head, rest) = read_head(bytes)?;
    let (nodes, rest) = number16(rest, 0, NODES_END)?;
    let nodes = u32::from(nodes);
    let (_, rest) = pass_rising(&Station, nodes, rest)?;
    let (amount, rest) = pass_maybe_world(rest, nodes)?;
    Some((head, amount, rest))
}
