//! A source in memory, which gives a limited number of bytes per call and fails at given calls.
ghost use Rattle.std.specs.Prelude.{◌≡◌, ◌≤◌, ◌<◌, length, ◌+◌, ◌-◌, ◌++◌, take, Some, drop, min, IfOk};
ghost use Rattle.std.specs.Io.{ReadsAtMost};
ghost use Rattle.std.specs.Io.KnownBytes.{ReadConsumes};
ghost use Rattle.mesh_io.specs.Cause.{HasCause};
ghost use Rattle.mesh_io.specs.Calls.{no_calls};
ghost use Rattle.mesh_io.specs.Memory.{take_answer, after_take, filled_buffer};

use crate::calls::Calls;
use crate::source::{Failed, Source};
use mesh_base::{Bytes, NoMemory};
use std::alloc::Global;
use std::marker::Model;

/// Copies the first bytes, at most `most` of them, to the start of the buffer, and returns how
/// many.
pub fn give(bytes: &[u8], most: usize, buf: &mut [u8]) -> usize
    ensures count { result ≡ min (length bytes.now) (min (length buf.old) most) }
    ensures copied { buf.new ≡ take result bytes.now ++ drop result buf.old }
{
    let n = bytes.len().min(buf.len().min(most));
    buf[..n].copy_from_slice(&bytes[..n]);
    n
}

/// Gives its bytes, at most `most` of them per call, and fails at the calls that are planned.
#[derive(Drop)]
pub struct MemSource {
    bytes: Bytes,
    at: usize,
    most: usize,
    calls: Calls,
}

impl Model for MemSource {
    ghost use Rattle.std.specs.Prelude.{◌≤◌, ◌<◌, length, drop};
    ghost use Rattle.mesh_io.specs.Memory.{Giving};

    ghost Value = { Giving };

    ghost view = { λ s. record { left = drop s.at s.bytes; most = s.most; calls = s.calls } };

    ghost invariant = { λ s. (s.at ≤ length s.bytes) × (0 < s.most) };
}

impl MemSource {
    /// A source of these bytes, at most `most` of them per call. It fails exactly at the calls
    /// whose numbers, counted from 1, are in `fails`.
    pub fn new(
        alloc: Global,
        bytes: Bytes,
        most: usize,
        fails: &[u64],
    ) -> Result<MemSource, NoMemory>
        requires { 0 < most }
        ensures { IfOk result (λ source. source ≡ record {
          left = bytes;
          most = most;
          calls = no_calls fails.now;
        }) }
    {
        Ok(MemSource {
            bytes,
            at: 0,
            most,
            calls: Calls::new(alloc, fails)?,
        })
    }
}

impl Source for MemSource {
    ghost left = { λ s. Some s.left };

    ghost faults = { λ s. s.calls.failed };

    fn take(&mut self, buf: &mut [u8]) -> Result<usize, Failed>
        ensures bound { ReadsAtMost result buf.new }
        ensures bytes { ReadConsumes (Some self.old.left) (Some self.new.left) result buf.new }
        ensures cause { HasCause self.old.calls.failed self.new.calls.failed result }
        ensures answer { result ≡ take_answer self.old (length buf.old) }
        ensures after { self.new ≡ after_take self.old (length buf.old) }
        ensures buffer { buf.new ≡ filled_buffer self.old buf.old }
    {
        if self.calls.next() {
            self.calls.fail();
            return Err(Failed);
        }
        let n = give(&self.bytes.as_slice()[self.at..], self.most, buf);
        self.at += n;
        Ok(n)
    }
}
