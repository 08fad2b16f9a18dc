//! What is done with the lines of an input.
ghost use Rattle.std.specs.Prelude.{◌≡◌, ◌+◌, ◌≤◌, ℕ, List, Option, length, IfOk, OnOk, IsErrOf};
ghost use Rattle.mesh_shell.specs.Pieces.{Whole};
ghost use Rattle.mesh_shell.specs.Fold.{Fold};
ghost use Rattle.mesh_shell.specs.Outputs.{IsHeadRun, IsLineRun, IsLastRun, IsEndRun};
ghost use Rattle.mesh_shell.specs.Causes.{HasFaultCause};
ghost use Rattle.mesh_shell.specs.Scripts.{GoesOn, EndsEarly, size_of_line, piece_past};

use crate::fault::Fault;
use crate::limit::Limit;
use mesh_io::Sink;

/// What a program does with the lines of its input, one after another, and at its end.
pub trait Script {
    /// What a run answers if nothing fails.
    type Verdict: Copy;

    /// What is written first, and the outcome of each line and of the end.
    ghost fold: { Fold Self Self.Verdict };

    /// Lines of at most this many bytes, counted as `size_of_line` does, can lead from the first
    /// state to the second.
    ghost leads: { Self → ℕ → Self → Type 0 };

    /// Lines of this many bytes, counted in the same way, can be done from this state on.
    ghost has_room: { Self → ℕ → Type 0 };

    /// The length in bytes of the longest line that it can do.
    ghost longest: { ℕ };

    /// What holds of the state after an input that was done to its end.
    ghost is_sound: { Self → Type 0 };

    /// Only the end of the input gives this verdict.
    ghost is_final: { Self.Verdict → Type 0 };

    /// Writes what comes before the text of the first line.
    fn begin<O: Sink>(&mut self, out: &mut O) -> Result<(), Fault>
        ensures comes { IsHeadRun (fold.head self.old) self.old self.new
            (O.held out.old) (O.held out.new) result }
        ensures cause { HasFaultCause Fault.WriteFault
            (O.faults out.old) (O.faults out.new) result }
        ensures read { ¬ IsErrOf result Fault.ReadFault };

    /// Does one line, without its LF, and writes its text. A verdict ends the run.
    fn line<O: Sink>(&mut self, line: &[u8], out: &mut O) -> Result<Option<Self::Verdict>, Fault>
        requires short { length line.now ≤ longest }
        requires room { has_room self.old (size_of_line line.now) }
        ensures comes { IsLineRun (fold.outcome self.old (Whole line.now)) self.new
            (O.held out.old) (O.held out.new) result }
        ensures early { EndsEarly is_final result }
        ensures leads { GoesOn result (leads self.old (size_of_line line.now) self.new) }
        ensures cause { HasFaultCause Fault.WriteFault
            (O.faults out.old) (O.faults out.new) result }
        ensures read { ¬ IsErrOf result Fault.ReadFault };

    /// Ends the run at a line that goes past a limit, and writes the last text.
    fn past<O: Sink>(&mut self, limit: Limit, out: &mut O) -> Result<Self::Verdict, Fault>
        requires room { has_room self.old 1 }
        ensures comes { IsLastRun (fold.outcome self.old (piece_past limit))
            (O.held out.old) (O.held out.new) result }
        ensures early { IfOk result (λ v. ¬ (is_final v)) }
        ensures cause { HasFaultCause Fault.WriteFault
            (O.faults out.old) (O.faults out.new) result }
        ensures read { ¬ IsErrOf result Fault.ReadFault };

    /// Ends the run at the end of the input, and writes the last text.
    fn end<O: Sink>(&mut self, out: &mut O) -> Result<Self::Verdict, Fault>
        ensures comes { IsEndRun (fold.ending self.old) self.new
            (O.held out.old) (O.held out.new) result }
        ensures leads { OnOk result (leads self.old 0 self.new) }
        ensures sound { OnOk result (is_sound self.new) }
        ensures cause { HasFaultCause Fault.WriteFault
            (O.faults out.old) (O.faults out.new) result }
        ensures read { ¬ IsErrOf result Fault.ReadFault };

    /// Without lines a state leads to itself, whatever the number of bytes.
    ghost stays: { (m : Self) (n : ℕ) → leads m n m };

    /// If lines of m bytes lead from a to b, and lines of n bytes from b to c, then lines of m + n
    /// bytes lead from a to c.
    ghost joins: { (a b c : Self) (m n : ℕ) → leads a m b → leads b n c → leads a (m + n) c };

    /// After lines there is as much room as they leave.
    ghost leaves: { (a b : Self) (m n : ℕ) → has_room a (m + n) → leads a m b → has_room b n };
}
