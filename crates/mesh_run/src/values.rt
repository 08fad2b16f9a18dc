//! Lines that are given as values.
ghost use Rattle.std.specs.Prelude.{◌≡◌, ◌<◌, ◌≤◌, ◌+◌, is_some, false, IsErrOf};
ghost use Rattle.mesh_base.specs.Bounds.{most_lines, most_steps_before_line};
ghost use Rattle.mesh_base.specs.declared.limits.TheConstants.{MOST_EVENTS};
ghost use Rattle.mesh_text.specs.Text.{outcome_in_run, outcome_of_line};
ghost use Rattle.mesh_script.specs.Seen.{accepted_of, IsAllowed};
ghost use Rattle.mesh_run.specs.Sums.{IsGrown};
ghost use Rattle.mesh_shell.specs.Causes.{HasFaultCause};
ghost use Rattle.mesh_shell.specs.Outputs.{IsLineRun};
ghost use Rattle.mesh_shell.specs.Scripts.{GoesOn, EndsEarly};
ghost use Rattle.mesh_run.specs.Running.{said};

use crate::commands::do_line;
use crate::ends::settle;
use crate::point::Point;
use mesh_io::Sink;
use mesh_script::Line;
use mesh_shell::Fault;
use mesh_text::Verdict;
use mesh_world::Steps;
use std::alloc::Global;

/// Does one allowed line and counts it, or ends the run. It writes nothing but a last line.
pub fn do_value<S: Steps, O: Sink>(
    alloc: Global,
    at: &mut Point<S>,
    line: Line<'_>,
    out: &mut O,
) -> Result<Option<Verdict>, Fault>
    requires few { at.old.lines + 1 < most_lines }
    requires steps { at.old.steps < most_steps_before_line }
    requires allowed { IsAllowed at.old.mesh (is_some at.old.world) line }
    ensures comes { IsLineRun
        (said false (outcome_in_run at.old (outcome_of_line at.old (accepted_of line.entry))))
        at.new (O.held out.old) (O.held out.new) result }
    ensures lines { GoesOn result (at.new.lines ≡ at.old.lines + 1) }
    ensures grown { GoesOn result (IsGrown at.old at.new) }
    ensures steps { GoesOn result (at.new.steps ≤ at.old.steps + MOST_EVENTS) }
    ensures early { EndsEarly (λ v. v ≡ Verdict.Finished) result }
    ensures cause { HasFaultCause Fault.WriteFault (O.faults out.old) (O.faults out.new) result }
    ensures read { ¬ IsErrOf result Fault.ReadFault }
{
    // The contract of `started` says that a world has no more nodes than a mesh may have.
    let _started = at.state.started();
    let did = do_line(alloc, at, &[], line, false, out);
    settle(at, did, out)
}
