//! What the bytes at hand decide about the next line.
ghost use Rattle.std.specs.Prelude.{◌≡◌, ◌≤◌, IfSome, Some};
ghost use Rattle.memchr.specs.Find.{IsFirstByte, is_byte};
ghost use Rattle.mesh_io.specs.Decisions.{decision_of, decision_past};

use crate::limits::Limits;
use memchr::memchr;
use std::simd::prelude::*;

/// What the bytes at hand decide about the next line, whatever comes after them.
#[derive(Clone, Copy)]
pub enum Decision {
    /// Nothing yet: it needs a read.
    Open,
    /// The input has ended.
    End,
    /// A line of `len` bytes; with its LF, if it has one, it takes `size` bytes.
    Line { len: usize, size: usize },
    /// The line is too long.
    TooLong,
    /// The input is too long.
    TooMuch,
}

// Which limit a line that is too long goes past first, if the input may have `room` more bytes.
fn past(most: Limits, room: usize) -> Decision
    ensures { result ≡ decision_past most room }
{
    if most.line < room {
        Decision::TooLong
    } else {
        Decision::TooMuch
    }
}

// The position of the first LF, if it is among the first 16 of at least 16 bytes: this takes one
// comparison, and most lines of a schedule end there.
#[inline(always)]
fn near_end(bytes: &[u8]) -> Option<usize>
    ensures { IfSome result (λ n. IsFirstByte (is_byte 10) bytes.now (Some n)) }
{
    if bytes.len() < 16 {
        return None;
    }
    let marks = u8x16::from_slice(bytes)
        .simd_eq(u8x16::splat(b'\n'))
        .to_bitmask();
    if marks == 0 {
        return None;
    }
    Some(marks.trailing_zeros() as usize)
}

// What these bytes decide, wherever their first LF is.
fn decision_at(most: Limits, given: usize, ended: bool, bytes: &[u8]) -> Decision
    requires { given ≤ most.input }
    ensures { result ≡ decision_of most given ended bytes.now }
{
    let room = most.input - given;
    let end = memchr(b'\n', bytes);
    let len = end.unwrap_or(bytes.len());
    if len > most.line {
        return past(most, room);
    }
    match end {
        Some(_) if len < room => Decision::Line { len, size: len + 1 },
        Some(_) => Decision::TooMuch,
        None if len > room => Decision::TooMuch,
        None if !ended => Decision::Open,
        None if len == 0 => Decision::End,
        None => Decision::Line { len, size: len },
    }
}

// `decision_at`, with the decision left in place.
#[inline(never)]
fn decide_far(most: Limits, given: usize, ended: bool, bytes: &[u8], decision: &mut Decision)
    requires { given ≤ most.input }
    ensures { decision.new ≡ decision_of most given ended bytes.now }
{
    *decision = decision_at(most, given, ended, bytes);
}

/// Leaves in `decision` what these bytes decide, after `given` bytes that were given before them.
/// `ended` says that none come after them.
#[inline(always)]
pub fn decide(most: Limits, given: usize, ended: bool, bytes: &[u8], decision: &mut Decision)
    requires { given ≤ most.input }
    ensures { decision.new ≡ decision_of most given ended bytes.now }
{
    if let Some(len) = near_end(bytes) {
        if len <= most.line && len < most.input - given {
            *decision = Decision::Line { len, size: len + 1 };
            return;
        }
    }
    decide_far(most, given, ended, bytes, decision);
}
