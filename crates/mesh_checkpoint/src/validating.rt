//! Whether bytes are a checkpoint whose sums are balanced.
ghost use Rattle.std.specs.Prelude.{◌≡◌, ◌↔◌, IsTrue, MatchResult};
ghost use Rattle.mesh_checkpoint.specs.State.{magic, IsValidated, IsRefused};

use crate::body::pass_body;
use crate::limits::LONGEST_BODY;
use crate::numbers::number32;
use thiserror::Error;

/// Why bytes are no checkpoint from which a run can go on. The first reason that applies is
/// answered.
#[derive(Clone, Copy, Debug, PartialEq, Eq, Error)]
pub enum ValidateError {
    /// The first four bytes aren't there, or aren't those of a checkpoint.
    #[error("no checkpoint")]
    NotState,
    /// The length isn't there, is greater than that of the longest body, or isn't that of the bytes
    /// after it.
    #[error("a wrong length")]
    Length,
    /// The body doesn't follow the table to its end.
    #[error("a body that doesn't follow the table")]
    Spelling,
    /// The data that were given or doubled aren't as many as those that were delivered, were
    /// dropped or are still there.
    #[error("sums that aren't balanced")]
    Sums,
}

// Whether these are the first bytes of a checkpoint.
fn is_magic(front: &[u8]) -> bool
    ensures { IsTrue result ↔ (front.now ≡ magic) }
{
    front == b"AWN1".as_slice()
}

/// Looks through the bytes of a checkpoint, without keeping anything and without asking for memory:
/// how many data are in its stores, in its inboxes and in flight. A packet carries a datum if its
/// bytes encode a data packet.
pub fn validate(b: &[u8]) -> Result<u64, ValidateError>
    ensures { MatchResult result (IsValidated b.now) (IsRefused b.now) }
{
    if b.len() < 4 {
        return Err(ValidateError::NotState);
    }
    let (front, rest) = b.split_at(4);
    if !is_magic(front) {
        return Err(ValidateError::NotState);
    }
    let Some((stated, body)) = number32(rest, 0, LONGEST_BODY + 1) else {
        return Err(ValidateError::Length);
    };
    if body.len() as u64 != u64::from(stated) {
        return Err(ValidateError::Length);
    }
    let Some((head, amount, left)) = pass_body(body) else {
        return Err(ValidateError::Spelling);
    };
    if !left.is_empty() {
        return Err(ValidateError::Spelling);
    }
    if head.given + head.copied != head.delivered + head.lost + amount {
        return Err(ValidateError::Sums);
    }
    Ok(amount)
}
