//! A script as a runner of lines.
ghost use Rattle.std.specs.Prelude.{◌≡◌, ◌≤◌, ◌+◌, [], IfSome, IfOk};
ghost use Rattle.std.specs.Io.KnownBytes.{IsAtEnd};
ghost use Rattle.mesh_io.specs.Buffering.{inner_of, held_by};
ghost use Rattle.mesh_shell.specs.Fold.{text_on};
ghost use Rattle.mesh_shell.specs.Outputs.{IsOutputFrom};
ghost use Rattle.mesh_shell.specs.Causes.{HasFaultCause};

use crate::fault::Fault;
use crate::limit::Limit;
use crate::lines::run_lines;
use crate::reader::LineReader;
use crate::runner::Runner;
use crate::script::Script;
use mesh_io::{Buffered, Sink};

/// A script, and the buffer to which it writes.
pub(crate) struct Scripted<'a, S, O> {
    script: &'a mut S,
    out: &'a mut Buffered<O>,
}

impl<S: Script, O: Sink> Runner for Scripted<'_, S, O> {
    ghost use Rattle.mesh_io.specs.Buffering.{gathered_in};
    ghost use Rattle.mesh_shell.specs.Scripted.{HasLed, HasStopped, HasFinished, HasBroken, IsCut};
    ghost use Rattle.mesh_shell.specs.ScriptedLaws.{stays_there, joins_both, leaves_room};

    type Answer = Result<S::Verdict, Fault>;

    ghost leads = { HasLed S.Script O.Sink };

    ghost stops = { HasStopped S.Script O.Sink };

    ghost ends = { HasFinished S.Script O.Sink };

    ghost breaks = { HasBroken O.Sink };

    ghost cuts = { IsCut };

    ghost has_handed_on = { λ s. gathered_in s.out.now ≡ [] };

    ghost has_room = { λ s. S.has_room s.script.now };

    ghost longest = { S.longest };

    #[inline]
    fn wait(&mut self) -> Option<Result<S::Verdict, Fault>> {
        match self.out.flush() {
            Ok(()) => None,
            Err(_) => Some(Err(Fault::WriteFault)),
        }
    }

    #[inline]
    fn line(&mut self, line: &[u8]) -> Option<Result<S::Verdict, Fault>> {
        match self.script.line(line, self.out) {
            Ok(None) => None,
            Ok(Some(verdict)) => Some(Ok(verdict)),
            Err(fault) => Some(Err(fault)),
        }
    }

    #[inline]
    fn past(&mut self, limit: Limit) -> Result<S::Verdict, Fault> {
        self.script.past(limit, self.out)
    }

    #[inline]
    fn end(&mut self) -> Result<S::Verdict, Fault> {
        self.script.end(self.out)
    }

    #[inline]
    fn cut(&mut self) -> Result<S::Verdict, Fault> {
        Err(Fault::ReadFault)
    }

    ghost stays = { stays_there _ _ S.stays };

    ghost joins = { joins_both _ _ S.joins };

    ghost leaves = { leaves_room _ _ S.stays S.leaves };
}

impl<S: Script, O: Sink> Scripted<'_, S, O> {
    // Writes what comes before the text of the first line, and does the lines.
    fn run<R: LineReader>(&mut self, lines: &mut R) -> Result<S::Verdict, Fault>
        requires short { (R.limits lines.old).line ≤ S.longest }
        requires room { S.has_room self.old.script.now ((R.limits lines.old).input + 1) }
        requires pending { R.pending lines.old ≡ [] }
        requires given { R.given lines.old ≡ 0 }
        ensures script { self.new.script.ghost_name ≡ self.old.script.ghost_name }
        ensures out { self.new.out.ghost_name ≡ self.old.out.ghost_name }
        ensures same { R.name lines.new ≡ R.name lines.old }
        ensures known { IfSome (R.left lines.old) (λ bytes.
            IsOutputFrom S.fold (R.limits lines.old) self.old.script.now bytes
            (R.left lines.new)
            (held_by O.held self.old.out.now) (held_by O.held self.new.out.now) result) }
        ensures after { IfOk result (λ v. S.is_final v → IfSome (R.left lines.old)
            (λ bytes. self.new.script.now
            ≡ (text_on S.fold (R.limits lines.old) self.old.script.now bytes).after)) }
        ensures leads { IfOk result (λ v. S.is_final v
            → S.leads self.old.script.now (R.limits lines.old).input self.new.script.now) }
        ensures sound { IfOk result (λ v. S.is_final v → S.is_sound self.new.script.now) }
        ensures end { IfOk result (λ v. S.is_final v → IsAtEnd (R.left lines.new)) }
        ensures read { HasFaultCause Fault.ReadFault
            (R.faults lines.old) (R.faults lines.new) result }
        ensures write { HasFaultCause Fault.WriteFault (O.faults (inner_of self.old.out.now))
            (O.faults (inner_of self.new.out.now)) result }
    {
        if let Err(fault) = self.script.begin(self.out) {
            return Err(fault);
        }
        run_lines(self, lines)
    }
}

/// Writes what the script writes first, and does the lines of a source from the first on, up to the
/// end of the input or the first line that ends the run. What is gathered is handed on before each
/// read, so that a line's text is out before the next line is awaited.
pub fn do_lines<S: Script, R: LineReader, O: Sink>(
    script: &mut S,
    lines: &mut R,
    out: &mut Buffered<O>,
) -> Result<S::Verdict, Fault>
    requires short { (R.limits lines.old).line ≤ S.longest }
    requires room { S.has_room script.old ((R.limits lines.old).input + 1) }
    requires pending { R.pending lines.old ≡ [] }
    requires given { R.given lines.old ≡ 0 }
    ensures same { R.name lines.new ≡ R.name lines.old }
    ensures known { IfSome (R.left lines.old) (λ bytes.
        IsOutputFrom S.fold (R.limits lines.old) script.old bytes
        (R.left lines.new)
        (held_by O.held out.old) (held_by O.held out.new) result) }
    ensures after { IfOk result (λ v. S.is_final v → IfSome (R.left lines.old)
        (λ bytes. script.new ≡ (text_on S.fold (R.limits lines.old) script.old bytes).after)) }
    ensures leads { IfOk result (λ v. S.is_final v
        → S.leads script.old (R.limits lines.old).input script.new) }
    ensures sound { IfOk result (λ v. S.is_final v → S.is_sound script.new) }
    ensures end { IfOk result (λ v. S.is_final v → IsAtEnd (R.left lines.new)) }
    ensures read { HasFaultCause Fault.ReadFault
        (R.faults lines.old) (R.faults lines.new) result }
    ensures write { HasFaultCause Fault.WriteFault
        (O.faults (inner_of out.old)) (O.faults (inner_of out.new)) result }
{
    let mut scripted = Scripted { script, out };
    let result = scripted.run(lines);
    // Taking `scripted` apart makes it known that `script` and `out` are as the run has left them.
    let Scripted { script: _, out: _ } = scripted;
    result
}
