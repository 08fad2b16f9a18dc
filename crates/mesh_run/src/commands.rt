//! What each command does.
ghost use Rattle.std.specs.Prelude.{◌≡◌, ◌≢◌, ◌<◌, ◌≤◌, ◌∷◌, [], length, is_some, true, OnOk, OnErr, IfSome};
ghost use Rattle.mesh_base.specs.Bounds.{most_lines, most_steps, most_steps_before_line};
ghost use Rattle.mesh_base.specs.declared.events.Event.{Event};
ghost use Rattle.mesh_model.specs.Worlds.{World};
ghost use Rattle.mesh_meaning.specs.Answers.{outcome_in, IsDoneInMesh};
ghost use Rattle.mesh_meaning.specs.Events.{event_of, node_of};
ghost use Rattle.mesh_text.specs.Schedule.{next_state, NewNode, Does};
ghost use Rattle.mesh_text.specs.Lines.{words_of};
ghost use Rattle.mesh_grammar.specs.Written.{line as line_of_words};
ghost use Rattle.mesh_text.specs.Effects.{outcome_lines};
ghost use Rattle.mesh_text.specs.Ranges.{IsEcho};
ghost use Rattle.mesh_text.specs.Text.{outcome_of_line};
ghost use Rattle.mesh_text.specs.Runs.{events_of_line};
ghost use Rattle.mesh_io.specs.Cause.{HasCause};
ghost use Rattle.mesh_io.specs.Puts.{Puts};
ghost use Rattle.mesh_script.specs.Seen.{accepted_of, IsPrintable, IsAllowed};
ghost use Rattle.mesh_run.specs.Stops.{answer_of, event_stop_of};
ghost use Rattle.mesh_run.specs.Causes.{HasStopCause};
ghost use Rattle.mesh_run.specs.Runs.{output_if, line_outcome_at, IsLineOf, IsLineRun, IsUncountedRun, IsReached, IsOnTheWay};

use crate::auto::do_auto;
use crate::point::Point;
use crate::show::{Shown, do_show};
use crate::stop::{EventStop, Stop};
use mesh_base::{Addr, Done, Event, LONGEST_LINE, Mesh, Packet};
use mesh_io::{PutFault, Sink};
use mesh_report::{put_echoed_event, put_event, put_line};
use mesh_script::Line;
use mesh_world::{StepError, Steps};
use std::alloc::Global;

/// Writes an event, as its line was read or, if it has no line, in canonical form, and then what
/// the event did. It is inlined, since most callers know whether there is a line.
#[inline(always)]
pub fn say_event<O: Sink>(
    mesh: &Mesh,
    bytes: Option<&[u8]>,
    event: &Event<'_>,
    done: &Done,
    packet: &Packet,
    out: &mut O,
) -> Result<(), PutFault>
    requires printable { IsPrintable mesh.now (Line.Step event.now) }
    requires in_mesh { IsDoneInMesh mesh.now done.now packet.now.items }
    requires echo { IfSome bytes (λ b. IsLineOf mesh.now (Does (event_of event.now)) b.now) }
    ensures text { (w : World) → Puts (O.held out.old) (O.held out.new)
        (outcome_lines mesh.now (event_of event.now)
        (outcome_in mesh.now (node_of (event_of event.now)) w done.now packet.now.items)) result }
    ensures cause { HasCause (O.faults out.old) (O.faults out.new) result }
{
    match bytes {
        Some(bytes) => put_echoed_event(bytes, mesh, event, done, packet, out),
        None => put_event(mesh, event, done, packet, out),
    }
}

/// Does an event once the run has started and, if `say`, writes it: as its line was read, if it has
/// one.
#[inline(always)]
pub fn do_event<S: Steps, O: Sink>(
    alloc: Global,
    at: &mut Point<S>,
    bytes: Option<&[u8]>,
    event: &Event<'_>,
    say: bool,
    out: &mut O,
) -> Result<(), EventStop>
    requires started { is_some at.old.world ≡ true }
    requires few { at.old.steps < most_steps }
    requires printable { IsPrintable at.old.mesh (Line.Step event.now) }
    requires echo { say ≡ true
        → IfSome bytes (λ b. IsLineOf at.old.mesh (Does (event_of event.now)) b.now) }
    ensures comes { IsLineRun say at.old (line_outcome_at at.old (event_of event.now))
        at.new (O.held out.old) (O.held out.new) (answer_of event.now result) }
    ensures run_state { OnOk result (at.new ≡ next_state at.old (event_of event.now)) }
    ensures way { OnErr result (IsReached at.old (event_of event.now ∷ []) at.new) }
    ensures cause { HasStopCause
        (O.faults out.old) (O.faults out.new) (answer_of event.now result) }
{
    let state = &mut at.state;
    if let Err(error) = state.step_counted(alloc, event, &mut at.packet, say, &mut at.done) {
        return Err(event_stop_of(error));
    }
    if !say {
        return Ok(());
    }
    let mesh = at.state.mesh();
    match say_event(mesh, bytes, event, &at.done, &at.packet, out) {
        Ok(()) => Ok(()),
        Err(_) => Err(EventStop::WriteFault),
    }
}

// Why a refused event isn't done. The node whose counter is full is the event's own.
#[cold]
fn event_stop_of(error: StepError) -> EventStop
    ensures { result ≡ event_stop_of error }
{
    match error {
        StepError::Full { field, .. } => EventStop::Full { field },
        StepError::NoMemory => EventStop::NoMemory,
    }
}

// Writes a line back, if `say`.
fn say_line<O: Sink>(mesh: &Mesh, line: &Line<'_>, say: bool, out: &mut O) -> Result<(), PutFault>
    requires printable { IsPrintable mesh.now line.now }
    requires some { line.now ≢ Line.Blank }
    ensures text { Puts (O.held out.old) (O.held out.new)
        (output_if say (line_of_words (words_of mesh.now (accepted_of line.now)))) result }
    ensures cause { HasCause (O.faults out.old) (O.faults out.new) result }
{
    if !say {
        return Ok(());
    }
    put_line(mesh, line, out)
}

// Adds a node, and writes its line if `say`.
fn do_node<S: Steps, O: Sink>(
    at: &mut Point<S>,
    addr: Addr,
    first: u32,
    say: bool,
    out: &mut O,
) -> Result<(), Stop<'static>>
    requires allowed { IsAllowed at.old.mesh (is_some at.old.world) (Line.Node addr first) }
    ensures comes { IsUncountedRun say at.old (outcome_of_line at.old (NewNode addr.0 first))
        at.new (O.held out.old) (O.held out.new) result }
    ensures lines { OnOk result (at.new.lines ≡ at.old.lines) }
    ensures same { OnErr result (at.new ≡ at.old) }
    ensures cause { HasStopCause (O.faults out.old) (O.faults out.new) result }
{
    let line = Line::Node { addr, first };
    say_line(at.state.mesh(), &line, say, out)?;
    at.state.add_node(addr, first);
    Ok(())
}

// Does an allowed line other than an event's, and writes its text if `say`.
#[inline(never)]
#[tactic(auto, unfolding(mesh_text::specs::Text::outcome_of_line))]
fn do_rest<'a, S: Steps, O: Sink>(
    alloc: Global,
    at: &mut Point<S>,
    bytes: &[u8],
    line: Line<'a>,
    say: bool,
    out: &mut O,
) -> Result<(), Stop<'a>>
    requires steps { at.old.steps < most_steps_before_line }
    requires allowed { IsAllowed at.old.mesh (is_some at.old.world) line }
    requires no_event { (e : Event) → line ≢ Line.Step e }
    requires short { length bytes.now ≤ LONGEST_LINE }
    requires echo { say ≡ true → IsEcho at.old.mesh bytes.now (accepted_of line) }
    ensures comes { IsUncountedRun say at.old (outcome_of_line at.old (accepted_of line.entry))
        at.new (O.held out.old) (O.held out.new) result }
    ensures lines { OnOk result (at.new.lines ≡ at.old.lines) }
    ensures way { OnErr result (IsOnTheWay at.old
        (events_of_line at.old (accepted_of line.entry)) at.new) }
    ensures cause { HasStopCause (O.faults out.old) (O.faults out.new) result }
{
    at.state.begin(alloc, &line)?;
    match line {
        Line::Blank => Ok(()),
        Line::Node { addr, first } => do_node(at, addr, first, say, out),
        Line::Step(_) => unreachable!(),
        Line::Auto { count } => do_auto(alloc, at, bytes, count, say, out),
        Line::Show { node } => do_show(at, bytes, Shown::Node { node }, say, out),
        Line::Route { node, dest } => do_show(at, bytes, Shown::Route { node, dest }, say, out),
        Line::Flight => do_show(at, bytes, Shown::Flight, say, out),
    }
}

// Does an allowed line, and writes its text if `say`. An event's line comes most often: it is done
// separately from the others, so that it makes no room for their answers.
#[inline(always)]
fn do_uncounted<'a, S: Steps, O: Sink>(
    alloc: Global,
    at: &mut Point<S>,
    bytes: &[u8],
    line: Line<'a>,
    say: bool,
    out: &mut O,
) -> Result<(), Stop<'a>>
    requires steps { at.old.steps < most_steps_before_line }
    requires allowed { IsAllowed at.old.mesh (is_some at.old.world) line }
    requires short { length bytes.now ≤ LONGEST_LINE }
    requires echo { say ≡ true → IsEcho at.old.mesh bytes.now (accepted_of line) }
    ensures comes { IsUncountedRun say at.old (outcome_of_line at.old (accepted_of line.entry))
        at.new (O.held out.old) (O.held out.new) result }
    ensures lines { OnOk result (at.new.lines ≡ at.old.lines) }
    ensures way { OnErr result (IsOnTheWay at.old
        (events_of_line at.old (accepted_of line.entry)) at.new) }
    ensures cause { HasStopCause (O.faults out.old) (O.faults out.new) result }
{
    let Line::Step(event) = line else {
        do_rest(alloc, at, bytes, line, say, out)?;
        return Ok(());
    };
    at.state.begin(alloc, &line)?;
    if let Err(stop) = do_event(alloc, at, Some(bytes), &event, say, out) {
        return Err(stop.of_event(event));
    }
    Ok(())
}

/// Does an allowed line, writes its text if `say`, and counts it. Any line but a blank or `node`
/// line is written back as it was read; if `say` is false, `bytes` need not be the line's.
#[inline(always)]
pub fn do_line<'a, S: Steps, O: Sink>(
    alloc: Global,
    at: &mut Point<S>,
    bytes: &[u8],
    line: Line<'a>,
    say: bool,
    out: &mut O,
) -> Result<(), Stop<'a>>
    requires few { at.old.lines < most_lines }
    requires steps { at.old.steps < most_steps_before_line }
    requires allowed { IsAllowed at.old.mesh (is_some at.old.world) line }
    requires short { length bytes.now ≤ LONGEST_LINE }
    requires echo { say ≡ true → IsEcho at.old.mesh bytes.now (accepted_of line) }
    ensures comes { IsLineRun say at.old (outcome_of_line at.old (accepted_of line.entry))
        at.new (O.held out.old) (O.held out.new) result }
    ensures way { OnErr result (IsOnTheWay at.old
        (events_of_line at.old (accepted_of line.entry)) at.new) }
    ensures cause { HasStopCause (O.faults out.old) (O.faults out.new) result }
{
    if let Err(stop) = do_uncounted(alloc, at, bytes, line, say, out) {
        return Err(stop);
    }
    at.state.count_line();
    Ok(())
}
