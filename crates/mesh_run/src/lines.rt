//! One line of a schedule.
ghost use Rattle.std.specs.Prelude.{◌≡◌, ◌<◌, ◌≤◌, ◌+◌, ◌*◌, length, OnOk, OnErr};
ghost use Rattle.mesh_base.specs.Bounds.{most_lines, most_steps_before_line};
ghost use Rattle.mesh_shell.specs.Pieces.{Whole};
ghost use Rattle.mesh_text.specs.Text.{outcome_of_piece};
ghost use Rattle.mesh_text.specs.Runs.{events_of_piece};
ghost use Rattle.mesh_run.specs.Causes.{HasStopCause};
ghost use Rattle.mesh_run.specs.Sums.{IsGrown};
ghost use Rattle.mesh_run.specs.Runs.{IsLineRun, IsOnTheWay};

use crate::commands::do_line;
use crate::point::Point;
use crate::stop::Stop;
use mesh_base::{LONGEST_LINE, MOST_EVENTS};
use mesh_io::Sink;
use mesh_script::parse_line;
use mesh_world::Steps;
use std::alloc::Global;

/// Does one line of at most `LONGEST_LINE` bytes, writes its text if `say`, and counts the line. It
/// never writes a last line: if it answers BadLine or Full, its caller does.
///
/// BadLine comes exactly where the line isn't allowed, and leaves the state as it was. Full comes
/// only where an event of the line would raise a node's counter past its field's greatest value;
/// the events before it were done and, if `say`, written, and the line isn't counted. After
/// WriteFault or NoMemory a prefix of the line's events was done, and a prefix of its text written:
/// the state is one that the line goes through. WriteFault comes exactly where the sink has failed.
pub fn one<'a, S: Steps, O: Sink>(
    alloc: Global,
    at: &mut Point<S>,
    bytes: &'a [u8],
    say: bool,
    out: &mut O,
) -> Result<(), Stop<'a>>
    requires few { at.old.lines < most_lines }
    requires steps { at.old.steps < most_steps_before_line }
    requires short { length bytes.now ≤ LONGEST_LINE }
    ensures comes { IsLineRun say at.old (outcome_of_piece at.old (Whole bytes.now))
        at.new (O.held out.old) (O.held out.new) result }
    ensures way { OnErr result (IsOnTheWay at.old
        (events_of_piece at.old (Whole bytes.now)) at.new) }
    ensures lines { OnOk result (at.new.lines ≡ at.old.lines + 1) }
    ensures grown { OnOk result (IsGrown at.old at.new) }
    ensures steps { OnOk result
        (4 * at.new.steps ≤ 4 * at.old.steps + MOST_EVENTS * length bytes.now) }
    ensures cause { HasStopCause (O.faults out.old) (O.faults out.new) result }
{
    match parse_line(bytes, at.state.mesh(), at.state.started()) {
        Err(fault) => Err(Stop::BadLine(fault)),
        Ok(line) => do_line(alloc, at, bytes, line, say, out),
    }
}
