//! The checkpoint part of an input: its first bytes, where a checkpoint belongs.
ghost use Rattle.std.specs.Prelude.{◌≡◌, ◌≤◌, ◌<◌, ◌+◌, ◌⊎◌, length, take, drop, IfOk, IfSome, IfNone, IsErrOf, vec_len};
ghost use Rattle.mesh_run.specs.Causes.{HasCauseIf};
ghost use Rattle.mesh_checkpoint.specs.State.{magic, stated_size};
ghost use Rattle.mesh_state.specs.CheckpointParts.{IsOtherHead, IsTaken, IsCheckpointPartCut, TakesFewer, TakesUpTo};

use mesh_checkpoint::LONGEST_BODY;
use mesh_io::Source;
use std::alloc::Global;

/// The size of a head, in bytes: four that say what it is, and four that state the body's length.
pub const HEAD_SIZE: usize = 8;

// The most bytes that a read asks for.
const ASKED: usize = 4096;

/// Why a checkpoint part wasn't read.
#[derive(Clone, Copy, PartialEq, Eq)]
pub enum CheckpointPartError {
    /// The source failed.
    ReadFault,
    /// Memory was asked for, and there wasn't enough.
    NoMemory,
}

// Reads `count` bytes and appends them to those that are there, or all that come if they are fewer.
fn take_more<I: Source>(
    input: &mut I,
    count: usize,
    bytes: &mut Vec<u8>,
) -> Result<(), CheckpointPartError>
    ensures kept { take (vec_len bytes.old) bytes.new.items ≡ bytes.old.items }
    ensures few { vec_len bytes.new ≤ vec_len bytes.old + count }
    ensures taken { IfOk result (λ _. TakesUpTo count (I.left input.old) (I.left input.new)
        (drop (vec_len bytes.old) bytes.new.items)) }
    ensures cut { IsErrOf result CheckpointPartError.ReadFault → TakesFewer count (I.left input.old)
        (I.left input.new) (drop (vec_len bytes.old) bytes.new.items) }
    ensures cause { HasCauseIf (IsErrOf result CheckpointPartError.ReadFault)
        (I.faults input.old) (I.faults input.new) }
{
    let mut chunk = [0; ASKED];
    let mut left = count;
    while left > 0 {
        let room = left.min(ASKED);
        let Ok(n) = input.take(&mut chunk[..room]) else {
            return Err(CheckpointPartError::ReadFault);
        };
        if n == 0 {
            return Ok(());
        }
        if bytes.extend_from_slice(&chunk[..n]).is_err() {
            return Err(CheckpointPartError::NoMemory);
        }
        left -= n;
    }
    Ok(())
}

// How many bytes of a body follow a head. None if the head isn't whole, or no body follows it.
fn body_size(head: &[u8]) -> Option<usize>
    requires { length head.now ≤ HEAD_SIZE }
    ensures whole { IfSome result (λ size. length head.now ≡ HEAD_SIZE) }
    ensures first { IfSome result (λ size. take 4 head.now ≡ magic) }
    ensures size { IfSome result (λ size. (size ≡ stated_size head.now) × (size ≤ LONGEST_BODY)) }
    ensures none { IfNone result ((length head.now < HEAD_SIZE) ⊎ IsOtherHead head.now) }
{
    if head.len() < HEAD_SIZE {
        return None;
    }
    let (first, length) = head.split_at(4);
    let size = u64::from(u32::from_be_bytes([length[0], length[1], length[2], length[3]]));
    if first != b"AWN1".as_slice() || size > LONGEST_BODY {
        return None;
    }
    Some(size as usize)
}

/// Reads the checkpoint part of an input. If its first 8 bytes show that no checkpoint's body
/// follows, no byte beyond them is read; otherwise none beyond the checkpoint part.
///
/// Memory is taken for the bytes as they come, and not for a length that a head merely states.
pub fn take_checkpoint_part<I: Source>(
    alloc: Global,
    input: &mut I,
) -> Result<Vec<u8>, CheckpointPartError>
    ensures taken { IfOk result (λ checkpoint_part. IfSome (I.left input.old) (λ bytes.
        IsTaken bytes checkpoint_part.items (I.left input.new))) }
    ensures cut { IsErrOf result CheckpointPartError.ReadFault → IfSome (I.left input.old) (λ bytes.
        IsCheckpointPartCut bytes (I.left input.new)) }
    ensures cause { HasCauseIf (IsErrOf result CheckpointPartError.ReadFault)
        (I.faults input.old) (I.faults input.new) }
{
    let mut checkpoint_part = Vec::new(alloc);
    take_more(input, HEAD_SIZE, &mut checkpoint_part)?;
    if let Some(size) = body_size(&checkpoint_part) {
        take_more(input, size, &mut checkpoint_part)?;
    }
    Ok(checkpoint_part)
}
