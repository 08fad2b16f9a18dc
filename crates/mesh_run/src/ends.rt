//! The ends of a run, each with its last line.
ghost use Rattle.std.specs.Prelude.{◌≡◌, ◌<◌, ◌+◌, length, IfOk, IsErrOf};
ghost use Rattle.mesh_base.specs.Bounds.{most_lines};
ghost use Rattle.mesh_model.specs.InMesh.{IsEvent};
ghost use Rattle.mesh_grammar.specs.Faults.{bad_line};
ghost use Rattle.mesh_meaning.specs.Events.{event_of};
ghost use Rattle.mesh_text.specs.Lines.{done_line, full_line};
ghost use Rattle.mesh_io.specs.Cause.{HasCause};
ghost use Rattle.mesh_io.specs.Puts.{Puts};
ghost use Rattle.mesh_run.specs.RunStates.{IsSafe};
ghost use Rattle.mesh_shell.specs.Scripts.{EndsEarly};
ghost use Rattle.mesh_run.specs.Ends.{why_past, CanBeTold, IsSettled, HasSettledCause};
ghost use Rattle.mesh_run.specs.Running.{last_said};

use crate::point::Point;
use crate::say::Say;
use crate::stop::Stop;
use mesh_base::{Event, Full};
use mesh_grammar::BadWhy;
use mesh_io::{PutFault, Sink};
use mesh_report::{put_bad, put_full, put_summary};
use mesh_shell::{Fault, Limit};
use mesh_text::Verdict;
use mesh_world::Steps;

/// Why a line that goes past a limit is refused.
pub fn why_past(limit: Limit) -> BadWhy
    ensures { result ≡ why_past limit }
{
    match limit {
        Limit::Line => BadWhy::TooLong,
        Limit::Input => BadWhy::TooMuch,
    }
}

/// Ends the run at a line that isn't allowed, and writes the line that says so.
#[cold]
pub fn refuse<S: Steps, O: Sink>(
    at: &mut Point<S>,
    why: BadWhy,
    out: &mut O,
) -> Result<Verdict, PutFault>
    requires { at.old.lines < most_lines }
    ensures text { Puts (O.held out.old) (O.held out.new)
        (bad_line (at.old.lines + 1) why) result }
    ensures verdict { IfOk result (λ v. v ≡ Verdict.RefusedAt (at.old.lines + 1)) }
    ensures same { at.new ≡ at.old }
    ensures cause { HasCause (O.faults out.old) (O.faults out.new) result }
{
    let line = at.state.lines() + 1;
    put_bad(line, &why, out)?;
    Ok(Verdict::RefusedAt(line))
}

// Ends the run at an event that is refused for a full counter, and writes the line that says so.
#[cold]
#[inline(never)]
fn fill<S: Steps, O: Sink>(
    at: &mut Point<S>,
    event: Event<'_>,
    field: Full,
    out: &mut O,
) -> Result<Verdict, PutFault>
    requires lines { at.old.lines < most_lines }
    requires event { IsEvent (length at.old.mesh) (event_of event) }
    ensures text { Puts (O.held out.old) (O.held out.new)
        (full_line at.old.mesh (at.old.lines + 1) (event_of event.entry) field) result }
    ensures verdict { IfOk result (λ v. v ≡ Verdict.FullAt (at.old.lines + 1)) }
    ensures same { at.new ≡ at.old }
    ensures cause { HasCause (O.faults out.old) (O.faults out.new) result }
{
    let line = at.state.lines() + 1;
    put_full(at.state.mesh(), line, &event, &field, out)?;
    Ok(Verdict::FullAt(line))
}

/// Goes on after a line that was done, or ends the run at a line that wasn't: if the line wasn't
/// allowed, or a counter is full, writes the line that says so.
#[inline]
pub fn settle<S: Steps, O: Sink>(
    at: &mut Point<S>,
    did: Result<(), Stop<'_>>,
    out: &mut O,
) -> Result<Option<Verdict>, Fault>
    requires { CanBeTold at.old did }
    ensures written { IsSettled at.old (O.held out.old) (O.held out.new) did.entry result }
    ensures same { at.new ≡ at.old }
    ensures early { EndsEarly (λ v. v ≡ Verdict.Finished) result }
    ensures cause { HasSettledCause (O.faults out.old) (O.faults out.new) did.entry result }
    ensures read { ¬ IsErrOf result Fault.ReadFault }
{
    match did {
        Ok(()) => Ok(None),
        Err(Stop::BadLine(fault)) => Ok(Some(refuse(at, BadWhy::Fault(fault), out)?)),
        Err(Stop::Full { event, field, .. }) => Ok(Some(fill(at, event, field, out)?)),
        Err(Stop::WriteFault) => Err(Fault::WriteFault),
        Err(Stop::NoMemory) => Err(Fault::NoMemory),
    }
}

/// Ends the run at the end of its input: writes what was counted, unless only faults are written.
pub fn finish<S: Steps, O: Sink>(
    at: &mut Point<S>,
    say: Say,
    out: &mut O,
) -> Result<Verdict, PutFault>
    ensures text { Puts (O.held out.old) (O.held out.new)
        (last_said say (done_line at.old)) result }
    ensures verdict { IfOk result (λ v. v ≡ Verdict.Finished) }
    ensures same { at.new ≡ at.old }
    ensures safe { IsSafe at.new }
    ensures cause { HasCause (O.faults out.old) (O.faults out.new) result }
{
    let summary = at.state.summary();
    if say != Say::Faults {
        put_summary(&summary, out)?;
    }
    Ok(Verdict::Finished)
}
