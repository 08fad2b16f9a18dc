//! A sink in memory, which takes a limited number of bytes per call and fails at given calls.
ghost use Rattle.std.specs.Prelude.{◌≡◌, ◌≤◌, ◌<◌, length, ◌+◌, ◌-◌, ◌++◌, [], Some, IfOk, min, vec_capacity};
ghost use Rattle.std.specs.Io.KnownBytes.{WriteAppends};
ghost use Rattle.mesh_io.specs.Cause.{HasCause};
ghost use Rattle.mesh_io.specs.Calls.{no_calls};
ghost use Rattle.mesh_io.specs.Memory.{put_answer, after_put};

use crate::calls::Calls;
use crate::sink::Sink;
use crate::source::Failed;
use mesh_base::NoMemory;
use std::alloc::Global;
use std::marker::Model;

/// Holds what is put into it, as far as it has room. All its memory is taken when it is made.
#[derive(Drop)]
pub struct MemSink {
    bytes: Vec<u8>,
    room: usize,
    most: usize,
    calls: Calls,
}

impl Model for MemSink {
    ghost use Rattle.std.specs.Prelude.{◌≤◌, ◌<◌, length, vec_capacity};
    ghost use Rattle.mesh_io.specs.Memory.{Taking};

    ghost Value = { Taking };

    ghost view = { λ s. record {
      held = s.bytes.items;
      room = s.room;
      most = s.most;
      calls = s.calls;
    } };

    ghost invariant = { λ s.
        (length s.bytes.items ≤ s.room) × (s.room ≤ vec_capacity s.bytes) × (0 < s.most) };
}

impl MemSink {
    /// A sink with room for `room` bytes, of which a call takes at most `most`. A call fails
    /// exactly if its number, counted from 1, is in `fails`, or the sink is full.
    pub fn new(alloc: Global, room: usize, most: usize, fails: &[u64]) -> Result<MemSink, NoMemory>
        requires { 0 < most }
        ensures { IfOk result (λ sink. sink ≡ record {
          held = [];
          room = room;
          most = most;
          calls = no_calls fails.now;
        }) }
    {
        Ok(MemSink {
            bytes: Vec::with_capacity(alloc, room)?,
            room,
            most,
            calls: Calls::new(alloc, fails)?,
        })
    }

    /// The bytes that it holds.
    pub fn held(&self) -> &[u8]
        ensures { result.now ≡ self.now.held }
    {
        self.bytes.as_slice()
    }

    // Appends bytes for which there is room.
    fn append(&mut self, piece: &[u8])
        requires { length self.old.held + length piece.now ≤ self.old.room }
        ensures { self.new ≡ record self.old { held = self.old.held ++ piece.now } }
    {
        match self.bytes.extend_from_slice(piece) {
            Ok(()) => {}
            Err(_) => unreachable!(),
        }
    }
}

impl Sink for MemSink {
    ghost held = { λ s. Some s.held };

    ghost faults = { λ s. s.calls.failed };

    fn put(&mut self, piece: &[u8]) -> Result<usize, Failed>
        requires { 0 < length piece.now }
        ensures some { IfOk result (λ n. (0 < n) × (n ≤ length piece.now)) }
        ensures bytes { WriteAppends (Some self.old.held) (Some self.new.held) result piece.now }
        ensures cause { HasCause self.old.calls.failed self.new.calls.failed result }
        ensures answer { result ≡ put_answer self.old (length piece.now) }
        ensures after { self.new ≡ after_put self.old piece.now }
    {
        if self.calls.next() || self.bytes.len() == self.room {
            self.calls.fail();
            return Err(Failed);
        }
        let n = piece.len().min(self.most.min(self.room - self.bytes.len()));
        self.append(&piece[..n]);
        Ok(n)
    }
}
