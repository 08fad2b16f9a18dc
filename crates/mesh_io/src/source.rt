//! A source of bytes.
ghost use Rattle.std.specs.Prelude.{List, ℕ, Option};
ghost use Rattle.std.specs.Io.{ReadsAtMost};
ghost use Rattle.std.specs.Io.KnownBytes.{ReadConsumes};
ghost use Rattle.mesh_io.specs.Cause.{HasCause};

use thiserror::Error;

/// A source or a sink has failed.
#[derive(Clone, Copy, Debug, PartialEq, Eq, Error)]
#[error("a read or a write failed")]
pub struct Failed;

/// Where bytes come from.
pub trait Source {
    /// The bytes still to come, if they are known.
    ghost left: { Self → Option (List ℕ) };

    /// How often it has failed: a number that never falls.
    ghost faults: { Self → ℕ };

    /// Puts the next bytes at the start of the buffer, and returns how many. `Ok(0)` for a buffer
    /// that isn't empty means the end of the input.
    fn take(&mut self, buf: &mut [u8]) -> Result<usize, Failed>
        ensures bound { ReadsAtMost result buf.new }
        ensures bytes { ReadConsumes (left self.old) (left self.new) result buf.new }
        ensures cause { HasCause (faults self.old) (faults self.new) result };
}
