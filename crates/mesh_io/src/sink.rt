//! A sink of bytes.
ghost use Rattle.std.specs.Prelude.{List, ℕ, Option, length, ◌≤◌, ◌<◌, IfOk};
ghost use Rattle.std.specs.Io.KnownBytes.{WriteAppends};
ghost use Rattle.mesh_base.specs.InlineBytes.{inline_bytes};
ghost use Rattle.mesh_io.specs.Cause.{HasCause};
ghost use Rattle.mesh_io.specs.Puts.{Puts};

use crate::put::PutFault;
use crate::source::Failed;
use mesh_base::ShortText;

/// Where bytes go.
pub trait Sink {
    /// The bytes that it holds, if they are known.
    ghost held: { Self → Option (List ℕ) };

    /// How often it has failed: a number that never falls.
    ghost faults: { Self → ℕ };

    /// Takes the first bytes of the piece, at least one, and returns how many.
    fn put(&mut self, piece: &[u8]) -> Result<usize, Failed>
        requires { 0 < length piece.now }
        ensures some { IfOk result (λ n. (0 < n) × (n ≤ length piece.now)) }
        ensures bytes { WriteAppends (held self.old) (held self.new) result piece.now }
        ensures cause { HasCause (faults self.old) (faults self.new) result };

    /// Takes a short text whole, or a prefix of it if it fails.
    fn put_short(&mut self, text: &ShortText) -> Result<(), PutFault>
        ensures text { Puts (held self.old) (held self.new) (inline_bytes text.now) result }
        ensures cause { HasCause (faults self.old) (faults self.new) result }
    {
        let bytes = text.as_slice();
        let mut taken = 0;
        while taken < bytes.len() {
            match self.put(&bytes[taken..]) {
                Ok(n) => taken += n,
                Err(_) => return Err(PutFault),
            }
        }
        Ok(())
    }
}
