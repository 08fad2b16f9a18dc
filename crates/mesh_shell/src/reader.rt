//! A reader of an input's lines.
ghost use Rattle.std.specs.Prelude.{◌≡◌, ◌≤◌, ◌<◌, ℕ, Bool, List, Option, Ok, true, false, length, IfSome, IsErrOf};
ghost use Rattle.std.specs.Io.KnownBytes.{IsAtEnd, prepend_known};
ghost use Rattle.mesh_io.specs.Cause.{HasReadCause};
ghost use Rattle.mesh_io.specs.Cutting.{Tells, IsCounted, HasNoLf};
ghost use Rattle.mesh_io.specs.Decisions.{decides};
ghost use Rattle.mesh_io.specs.declared.limits.Limits.{Limits};

use crate::runner::Runner;
use mesh_io::{Cutter, LineError, Source};

/// A source that is cut into lines, whatever room it has for them.
pub trait LineReader {
    /// The ghost name of its reference to its source.
    ghost name: { Self → ℕ };

    /// The limits of its lines.
    ghost limits: { Self → Limits };

    /// The bytes still to come from its source, if they are known.
    ghost left: { Self → Option (List ℕ) };

    /// How often its source has failed.
    ghost faults: { Self → ℕ };

    /// The bytes that were read and not yet given.
    ghost pending: { Self → List ℕ };

    /// The line that was found last.
    ghost found: { Self → List ℕ };

    /// How many bytes were given, each LF included.
    ghost given: { Self → ℕ };

    /// The source has answered that it has ended.
    ghost ended: { Self → Bool };

    /// The line that was found last, without its LF.
    fn line(&self) -> &[u8]
        ensures { result.now ≡ found self.now };

    /// Whether the next answer needs no read.
    fn is_decided(&self) -> bool
        ensures { result ≡ decides (limits self.now) (given self.now)
            (ended self.now) (pending self.now) };

    /// Finds the next line for a runner: false only if the input has ended. This is the one call
    /// that reads, and it asks that the runner has handed on all that is gathered, unless the answer
    /// needs no read: no text is held back while a read waits.
    fn advance<R: Runner>(&mut self, runner: &R) -> Result<bool, LineError>
        requires handed_on { decides (limits self.old) (given self.old) (ended self.old)
            (pending self.old) ≡ false → R.has_handed_on runner.now }
        ensures same { name self.new ≡ name self.old }
        ensures most { limits self.new ≡ limits self.old }
        ensures known { IfSome (prepend_known (pending self.old) (left self.old)) (λ bytes.
            Tells (limits self.old) (given self.old) bytes result (found self.new)
            (given self.new) (prepend_known (pending self.new) (left self.new))) }
        ensures unasked { decides (limits self.old) (given self.old) (ended self.old)
            (pending self.old) ≡ true → ¬ IsErrOf result LineError.ReadFault }
        ensures short { result ≡ Ok true → length (found self.new) ≤ (limits self.old).line }
        ensures counted { result ≡ Ok true → IsCounted (length (found self.new))
            (given self.old) (given self.new) (ended self.new) }
        ensures grows { result ≡ Ok true → given self.old < given self.new }
        ensures few { given self.new ≤ (limits self.new).input }
        ensures end { result ≡ Ok false → IsAtEnd (left self.new) }
        ensures pending { IsErrOf result LineError.ReadFault → HasNoLf (pending self.new) }
        ensures cause { HasReadCause (faults self.old) (faults self.new) result };
}

impl<'s, S: Source, const CAPACITY: usize> LineReader for Cutter<'s, S, CAPACITY> {
    ghost use Rattle.mesh_io.specs.Cutting.{source_in, limits_in, faults_in, pending_in, line_in, given_in, has_ended_in};

    ghost name = { λ c. (source_in c).ghost_name };

    ghost limits = { limits_in };

    ghost left = { λ c. S.left (source_in c).now };

    ghost faults = { faults_in S.faults };

    ghost pending = { pending_in };

    ghost found = { line_in };

    ghost given = { given_in };

    ghost ended = { has_ended_in };

    fn line(&self) -> &[u8] {
        self.line()
    }

    fn is_decided(&self) -> bool {
        self.is_decided()
    }

    fn advance<R: Runner>(&mut self, _runner: &R) -> Result<bool, LineError> {
        self.advance()
    }
}
