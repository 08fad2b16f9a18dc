//! Events that the run chooses, one after another.
ghost use Rattle.std.specs.Prelude.{◌≡◌, ◌<◌, ◌≤◌, ◌+◌, length, is_some, true, false, OnOk, OnErr, IfOk};
ghost use Rattle.mesh_base.specs.Bounds.{most_steps, most_steps_before_line};
ghost use Rattle.mesh_text.specs.Schedule.{Chooses};
ghost use Rattle.mesh_text.specs.Text.{outcome_of_line};
ghost use Rattle.mesh_text.specs.Auto.{outcome_of_events, events_chosen};
ghost use Rattle.mesh_grammar.specs.Written.{line as line_of_words};
ghost use Rattle.mesh_io.specs.Cause.{HasCause};
ghost use Rattle.mesh_io.specs.Puts.{Puts};
ghost use Rattle.mesh_script.specs.Seen.{IsPrintable};
ghost use Rattle.mesh_run.specs.Causes.{HasStopCause};
ghost use Rattle.mesh_run.specs.Runs.{output_if, IsLineOf, IsUncountedRun, IsEventsRun, IsReached, AreTwoDone};

use crate::choice::next_event;
use crate::commands::do_event;
use crate::point::Point;
use crate::stop::Stop;
use mesh_base::{Event, LONGEST_LINE};
use mesh_io::{PutFault, Sink};
use mesh_report::{put_auto_end, put_echo};
use mesh_script::Line;
use mesh_world::Steps;
use std::alloc::Global;

// Does two events together: the one that the run chooses and the one that it chooses next, if they
// are a delivery and the turn of its receiver. If the answer is false, nothing was done. It isn't
// inlined, so that the loop that does a line's event keeps its registers.
#[inline(never)]
fn take_next_two<S: Steps>(at: &mut Point<S>) -> bool
    requires started { is_some at.old.world ≡ true }
    requires few { at.old.steps + 1 < most_steps }
    ensures done { result ≡ true → AreTwoDone at.old at.new }
    ensures same { result ≡ false → at.new ≡ at.old }
{
    match next_event(at) {
        Some(Event::Deliver { id }) => at.state.take_copy(id, &mut at.packet),
        _ => false,
    }
}

// Calls `take_next_two` if nothing is written and at least two events are left; otherwise does
// nothing.
#[inline(always)]
fn take_two<S: Steps>(at: &mut Point<S>, say: bool, left: u32) -> bool
    requires started { is_some at.old.world ≡ true }
    requires few { at.old.steps + left < most_steps }
    ensures quiet { result ≡ true → say ≡ false }
    ensures left { result ≡ true → 2 ≤ left }
    ensures done { result ≡ true → AreTwoDone at.old at.new }
    ensures same { result ≡ false → at.new ≡ at.old }
{
    if say {
        return false;
    }
    if left < 2 {
        return false;
    }
    take_next_two(at)
}

// Does at most `count` events that the run chooses, each after the one before it is done, and
// answers how many it did. If nothing is written, a delivery and the turn after it are done
// together if that is possible.
#[inline(always)]
fn do_events<S: Steps, O: Sink>(
    alloc: Global,
    at: &mut Point<S>,
    count: u32,
    say: bool,
    out: &mut O,
) -> Result<u32, Stop<'static>>
    requires started { is_some at.old.world ≡ true }
    requires few { at.old.steps + count < most_steps }
    ensures ran { IsEventsRun say at.old (outcome_of_events at.old (events_chosen count at.old))
        at.new (O.held out.old) (O.held out.new) result }
    ensures did { IfOk result (λ did. did ≡ length (events_chosen count at.old)) }
    ensures lines { OnOk result (at.new.lines ≡ at.old.lines) }
    ensures way { IsReached at.old (events_chosen count at.old) at.new }
    ensures cause { HasStopCause (O.faults out.old) (O.faults out.new) result }
{
    let mut did: u32 = 0;
    'events: while did < count {
        if take_two(at, say, count - did) {
            did += 2;
            continue 'events;
        }
        let Some(event) = next_event(at) else {
            return Ok(did);
        };
        if let Err(stop) = do_event(alloc, at, None, &event, say, out) {
            return Err(stop.of_event(event));
        }
        did += 1;
    }
    Ok(did)
}

// Writes a line as it was read, if `say`.
fn say_echo<O: Sink>(bytes: &[u8], say: bool, out: &mut O) -> Result<(), PutFault>
    requires { say ≡ true → length bytes.now ≤ LONGEST_LINE }
    ensures text { Puts (O.held out.old) (O.held out.new)
        (output_if say (line_of_words bytes.now)) result }
    ensures cause { HasCause (O.faults out.old) (O.faults out.new) result }
{
    if !say {
        return Ok(());
    }
    put_echo(bytes, out)
}

/// Does at most `count` events that the run chooses. If `say`, it writes the line as it was read,
/// the events, and how many there were.
pub fn do_auto<S: Steps, O: Sink>(
    alloc: Global,
    at: &mut Point<S>,
    bytes: &[u8],
    count: u32,
    say: bool,
    out: &mut O,
) -> Result<(), Stop<'static>>
    requires started { is_some at.old.world ≡ true }
    requires steps { at.old.steps < most_steps_before_line }
    requires printable { IsPrintable at.old.mesh (Line.Auto count) }
    requires echo { say ≡ true → IsLineOf at.old.mesh (Chooses count) bytes.now }
    ensures comes { IsUncountedRun say at.old (outcome_of_line at.old (Chooses count))
        at.new (O.held out.old) (O.held out.new) result }
    ensures lines { OnOk result (at.new.lines ≡ at.old.lines) }
    ensures way { OnErr result (IsReached at.old (events_chosen count at.old) at.new) }
    ensures cause { HasStopCause (O.faults out.old) (O.faults out.new) result }
{
    say_echo(bytes, say, out)?;
    let did = match do_events(alloc, at, count, say, out) {
        Ok(did) => did,
        Err(stop) => return Err(stop),
    };
    if !say {
        return Ok(());
    }
    put_auto_end(did, out)?;
    Ok(())
}
