//! An event, and what is written below it.
ghost use Rattle.std.specs.Prelude.{◌≡◌, ◌<◌, ◌++◌, length, is_some, true, OnOk, IfSome, IsErrOf};
ghost use Rattle.mesh_base.specs.Bounds.{most_lines, most_steps, most_steps_before_line};
ghost use Rattle.mesh_base.specs.Meshes.{Nodes};
ghost use Rattle.mesh_io.specs.Cause.{HasCause};
ghost use Rattle.mesh_io.specs.Puts.{Puts};
ghost use Rattle.mesh_model.specs.InMesh.{IsEvent};
ghost use Rattle.mesh_meaning.specs.Answers.{IsDoneInMesh};
ghost use Rattle.mesh_meaning.specs.Events.{event_of};
ghost use Rattle.mesh_text.specs.Schedule.{RunState, next_state, outcome_at, Does};
ghost use Rattle.mesh_text.specs.Effects.{outcome_lines};
ghost use Rattle.mesh_script.specs.Seen.{IsPrintable};
ghost use Rattle.mesh_run.specs.RunStates.{IsAnswer};
ghost use Rattle.mesh_run.specs.Causes.{HasCauseIf, HasStopCause};
ghost use Rattle.mesh_run.specs.Runs.{IsLineOf, IsLineRun};
ghost use Rattle.mesh_blocks.specs.Changes.{changed_line, changed_from};
ghost use Rattle.mesh_blocks.specs.Forms.{below_text};
ghost use Rattle.mesh_blocks.specs.Text.{watched_line};
ghost use Rattle.mesh_blocks.specs.Lines.{watched_event, shown_by, IsKeptFor};
ghost use Rattle.mesh_blocks.specs.declared.event.Unwritten.TheVariants as unwritten;

use crate::below::Below;
use crate::block::{changed_by, draw_block, draw_block_before, put_shown};
use crate::changes::put_changes;
use crate::draft::Drafts;
use mesh_base::{Done, Event, Mesh, NoMemory, Packet, short};
use mesh_io::{PutFault, Sink};
use mesh_run::{Point, State, Stop, say_event};
use mesh_script::Line;
use mesh_world::{StepError, World};
use std::alloc::Global;

/// Why an event was not written whole with what belongs below it.
#[derive(Clone, Copy)]
pub enum Unwritten {
    WriteFault,
    NoMemory,
}

impl From<PutFault> for Unwritten {
    ghost from_gives = { λ _ fault. fault ≡ unwritten.WriteFault };

    fn from(_fault: PutFault) -> Self {
        Unwritten::WriteFault
    }
}

impl From<NoMemory> for Unwritten {
    ghost from_gives = { λ _ fault. fault ≡ unwritten.NoMemory };

    fn from(_none: NoMemory) -> Self {
        Unwritten::NoMemory
    }
}

// Writes the line that names a node that was changed.
fn put_changed_line<O: Sink>(mesh: &Mesh, node: usize, out: &mut O) -> Result<(), PutFault>
    requires { node < length mesh.now }
    ensures text { Puts (O.held out.old) (O.held out.new) (changed_line mesh.now node) result }
    ensures cause { HasCause (O.faults out.old) (O.faults out.new) result }
{
    out.put_short(&short(b"changed "))?;
    out.put_short(&mesh.name(node))?;
    out.put_short(&short(b"\n"))
}

// Writes what has changed of a node's block, which was kept as it was before the event.
fn put_changed<O: Sink>(
    state: &State<World>,
    node: usize,
    drafts: &mut Drafts,
    out: &mut O,
) -> Result<(), Unwritten>
    requires started { is_some state.now.world ≡ true }
    requires node { node < length state.now.mesh }
    ensures text { Puts (O.held out.old) (O.held out.new)
        (changed_from drafts.old.before.bytes.items state.now node) result }
    ensures cause { HasCauseIf (IsErrOf result Unwritten.WriteFault)
        (O.faults out.old) (O.faults out.new) }
{
    draw_block(state, node, &mut drafts.after)?;
    put_changed_line(state.mesh(), node, out)?;
    put_changes(drafts.before.text(), drafts.after.text(), out)?;
    Ok(())
}

// Writes what belongs below an event that has changed this node.
fn put_below<O: Sink>(
    state: &State<World>,
    node: usize,
    below: Below,
    drafts: &mut Drafts,
    out: &mut O,
) -> Result<(), Unwritten>
    requires started { is_some state.now.world ≡ true }
    requires node { node < length state.now.mesh }
    ensures text { Puts (O.held out.old) (O.held out.new)
        (shown_by below drafts.old.before.bytes.items state.now node) result }
    ensures cause { HasCauseIf (IsErrOf result Unwritten.WriteFault)
        (O.faults out.old) (O.faults out.new) }
{
    match below {
        Below::Blocks => {
            put_shown(state, node, out)?;
            Ok(())
        }
        Below::Changes => put_changed(state, node, drafts, out),
    }
}

// Writes an event, what it did, and what belongs below it.
fn put_watched<O: Sink>(
    state: &State<World>,
    below: Below,
    bytes: Option<&[u8]>,
    event: &Event<'_>,
    done: &Done,
    packet: &Packet,
    drafts: &mut Drafts,
    out: &mut O,
) -> Result<(), Unwritten>
    requires started { is_some state.now.world ≡ true }
    requires event { IsEvent (length state.now.mesh) (event_of event.now) }
    requires printable { IsPrintable state.now.mesh (Line.Step event.now) }
    requires in_mesh { IsDoneInMesh state.now.mesh done.now packet.now.items }
    requires echo { IfSome bytes (λ b. IsLineOf state.now.mesh (Does (event_of event.now)) b.now) }
    ensures text { (m : RunState)
        → IsAnswer m (event_of event.now) done.now state.now packet.now.items
        → IsKeptFor below m (event_of event.now) drafts.old.before.bytes.items
        → Puts (O.held out.old) (O.held out.new)
        (outcome_lines m.mesh (event_of event.now) (outcome_at m (event_of event.now))
        ++ below_text below m (event_of event.now)) result }
    ensures cause { HasCauseIf (IsErrOf result Unwritten.WriteFault)
        (O.faults out.old) (O.faults out.new) }
{
    let mesh = state.mesh();
    say_event(mesh, bytes, event, done, packet, out)?;
    match changed_by(event, done) {
        Some(node) => put_below(state, node, below, drafts, out),
        None => Ok(()),
    }
}

// Keeps the block of the node that an event will change, if the changes are to be written.
fn keep_block(
    state: &State<World>,
    below: Below,
    event: &Event<'_>,
    drafts: &mut Drafts,
) -> Result<(), NoMemory>
    requires started { is_some state.now.world ≡ true }
    requires event { IsEvent (length state.now.mesh) (event_of event.now) }
    ensures { OnOk result
        (IsKeptFor below state.now (event_of event.now) drafts.new.before.bytes.items) }
{
    match below {
        Below::Blocks => Ok(()),
        Below::Changes => draw_block_before(state, event, &mut drafts.before),
    }
}

/// Does an event once the run has started, and writes it, as its line was read if it has one, with
/// what belongs below it.
pub fn do_event<'a, O: Sink>(
    alloc: Global,
    at: &mut Point<World>,
    below: Below,
    drafts: &mut Drafts,
    bytes: Option<&[u8]>,
    event: Event<'a>,
    out: &mut O,
) -> Result<(), Stop<'a>>
    requires started { is_some at.old.world ≡ true }
    requires few { at.old.steps < most_steps }
    requires printable { IsPrintable at.old.mesh (Line.Step event) }
    requires echo { IfSome bytes (λ b. IsLineOf at.old.mesh (Does (event_of event)) b.now) }
    ensures comes { IsLineRun true at.old (watched_event below at.old (event_of event.entry))
        at.new (O.held out.old) (O.held out.new) result }
    ensures run_state { OnOk result (at.new ≡ next_state at.old (event_of event.entry)) }
    ensures cause { HasStopCause (O.faults out.old) (O.faults out.new) result }
{
    keep_block(&at.state, below, &event, drafts)?;
    let state = &mut at.state;
    match state.step_counted(alloc, &event, &mut at.packet, true, &mut at.done) {
        Ok(()) => {}
        Err(StepError::Full { node, field }) => return Err(Stop::Full { event, node, field }),
        Err(StepError::NoMemory) => return Err(Stop::NoMemory),
    }
    let (state, packet) = (&at.state, &at.packet);
    match put_watched(state, below, bytes, &event, &at.done, packet, drafts, out) {
        Ok(()) => Ok(()),
        Err(Unwritten::WriteFault) => Err(Stop::WriteFault),
        Err(Unwritten::NoMemory) => Err(Stop::NoMemory),
    }
}

/// Does a line with one event: starts the run if that is due, writes the line as it was read, what
/// the event did, and what belongs below it, and counts the line.
pub fn do_step<'a, O: Sink>(
    alloc: Global,
    at: &mut Point<World>,
    below: Below,
    drafts: &mut Drafts,
    bytes: &[u8],
    event: Event<'a>,
    out: &mut O,
) -> Result<(), Stop<'a>>
    requires few { at.old.lines < most_lines }
    requires steps { at.old.steps < most_steps_before_line }
    requires printable { IsPrintable at.old.mesh (Line.Step event) }
    requires echo { IsLineOf at.old.mesh (Does (event_of event)) bytes.now }
    ensures comes { IsLineRun true at.old (watched_line below at.old (Does (event_of event.entry)))
        at.new (O.held out.old) (O.held out.new) result }
    ensures cause { HasStopCause (O.faults out.old) (O.faults out.new) result }
{
    at.begin(alloc)?;
    if let Err(stop) = do_event(alloc, at, below, drafts, Some(bytes), event, out) {
        return Err(stop);
    }
    at.count_line();
    Ok(())
}
