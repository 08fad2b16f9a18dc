//! An event, and what the channel decides after it.
ghost use Rattle.std.specs.Prelude.{◌≡◌, ◌≢◌, ◌<◌, ◌≤◌, ◌+◌, ◌*◌, length, is_some, true, OnOk, IfOk, IfSome};
ghost use Rattle.mesh_base.specs.Bounds.{most_steps};
ghost use Rattle.mesh_io.specs.Cause.{HasCause};
ghost use Rattle.mesh_io.specs.Puts.{Puts};
ghost use Rattle.mesh_model.specs.Worlds as worlds;
ghost use Rattle.mesh_model.specs.Worlds.{World};
ghost use Rattle.mesh_meaning.specs.Answers.{outcome_in, IsDoneInMesh};
ghost use Rattle.mesh_meaning.specs.Events.{event_of, node_of};
ghost use Rattle.mesh_text.specs.Schedule.{RunState, Does, world_of, outcome_at};
ghost use Rattle.mesh_text.specs.Effects.{outcome_lines};
ghost use Rattle.mesh_script.specs.Seen.{IsPrintable};
ghost use Rattle.mesh_script.specs.declared.line.Line.{Line};
ghost use Rattle.mesh_base.specs.declared.limits.TheConstants.{MOST_NODES};
ghost use Rattle.mesh_fates.specs.declared.channel.TheConstants.{GREATEST_TICK};
ghost use Rattle.mesh_run.specs.Outputs.{says_lines};
ghost use Rattle.mesh_run.specs.Causes.{HasStopCause};
ghost use Rattle.mesh_run.specs.Runs.{output_if, line_outcome_at, IsLineOf, IsLineRun};
ghost use Rattle.mesh_fates.specs.Channels as channels;
ghost use Rattle.mesh_channel.specs.RunStates.{decided_in_air, HasNumbers, HasAnswer, IsAnswerOf};
ghost use Rattle.mesh_channel.specs.Room.{HasFewCopies};
ghost use Rattle.mesh_base.specs.Members.{member_list};

use crate::channeled::Channeled;
use mesh_base::{Air, Cast, Done, Effect, Event, Mesh, NoMemory, Packet};
use mesh_fates::{Channel, Rates};
use mesh_io::{PutFault, Sink};
use mesh_run::{Stop, say_event};
use mesh_world::StepError;

// Writes an event and what it did, if `say`.
fn say_if<O: Sink>(
    say: bool,
    mesh: &Mesh,
    bytes: Option<&[u8]>,
    event: &Event<'_>,
    done: &Done,
    packet: &Packet,
    out: &mut O,
) -> Result<(), PutFault>
    requires printable { IsPrintable mesh.now (Line.Step event.now) }
    requires in_mesh { IsDoneInMesh mesh.now done.now packet.now.items }
    requires echo { IfSome bytes (λ b. IsLineOf mesh.now (Does (event_of event.now)) b.now) }
    ensures text { (w : World) → Puts (O.held out.old) (O.held out.new)
        (output_if say (outcome_lines mesh.now (event_of event.now)
        (outcome_in mesh.now (node_of (event_of event.now)) w done.now packet.now.items))) result }
    ensures cause { HasCause (O.faults out.old) (O.faults out.new) result }
{
    if !say {
        return Ok(());
    }
    say_event(mesh, bytes, event, done, packet, out)
}

/// Does an event once the run has started and, if `at.say` asks for it, writes it: as its line was
/// read, if it has one. What came of it is left in `done`.
pub fn do_event<'a, O: Sink>(
    at: &mut Channeled,
    bytes: Option<&[u8]>,
    event: Event<'a>,
    done: &mut Done,
    out: &mut O,
) -> Result<(), Stop<'a>>
    requires started { is_some at.old.point.world ≡ true }
    requires few { at.old.point.steps < most_steps }
    requires copies { HasFewCopies at.old.point }
    requires printable { IsPrintable at.old.point.mesh (Line.Step event) }
    requires echo { IfSome bytes (λ b.
        IsLineOf at.old.point.mesh (Does (event_of event)) b.now) }
    ensures comes { IsLineRun (says_lines at.old.say) at.old.point
        (line_outcome_at at.old.point (event_of event.entry)) at.new.point
        (O.held out.old) (O.held out.new) result }
    ensures answer { OnOk result
        (IsAnswerOf at.old.point (event_of event.entry) at.new.point done.new) }
    ensures copies { OnOk result (HasFewCopies at.new.point) }
    ensures only { at.new ≡ record at.old { point = at.new.point } }
    ensures cause { HasStopCause (O.faults out.old) (O.faults out.new) result }
{
    let say = at.say.says_lines();
    let point = &mut at.point;
    // The contract of `started` says that a world has no more nodes than a mesh may have.
    let _started = point.state.started();
    let (alloc, state, packet) = (at.alloc, &mut point.state, &mut point.packet);
    match state.step_counted(alloc, &event, packet, true, done) {
        Ok(()) => {}
        Err(StepError::Full { node, field }) => return Err(Stop::Full { event, node, field }),
        Err(StepError::NoMemory) => return Err(Stop::NoMemory),
    }
    let mesh = point.state.mesh();
    match say_if(say, mesh, bytes, &event, done, &point.packet, out) {
        Ok(()) => Ok(()),
        Err(_) => Err(Stop::WriteFault),
    }
}

// Decides what happens to the copies of a cast.
fn after_cast(
    channel: &mut Channel,
    rates: &Rates,
    effect: &Effect,
    air: &Air,
) -> Result<(), NoMemory>
    requires tick { channel.old.tick ≤ GREATEST_TICK }
    requires nodes { length (member_list air.now.to) ≤ MOST_NODES }
    requires numbers { HasNumbers effect.now.cast air.now }
    ensures decided { OnOk result
        (channel.new ≡ decided_in_air rates.now effect.now.cast air.now channel.old) }
    ensures tick { OnOk result (channel.new.tick ≡ channel.old.tick) }
    ensures few { OnOk result
        (length channel.new.left ≤ length channel.old.left + 3 * MOST_NODES) }
{
    let count = air.to.count();
    if count == 0 {
        return Ok(());
    }
    match effect.cast {
        Cast::Nothing => Ok(()),
        Cast::One(_) => channel.decide(rates, true, count, air.first),
        _ => channel.decide(rates, false, count, air.first),
    }
}

/// Decides what happens to the copies made by an event that the channel has chosen; about a double
/// it has decided already.
pub fn after_chosen(channel: &mut Channel, rates: &Rates, done: &Done) -> Result<(), NoMemory>
    requires tick { channel.old.tick ≤ GREATEST_TICK }
    requires answer { HasAnswer done.now }
    ensures decided { OnOk result ((m n : RunState) (e : worlds.Event) → IsAnswerOf m e n done.now
        → channel.new ≡ channels.after_chosen rates.now (world_of m) (outcome_at m e) channel.old) }
    ensures tick { OnOk result (channel.new.tick ≡ channel.old.tick) }
    ensures few { OnOk result
        (length channel.new.left ≤ length channel.old.left + 3 * MOST_NODES) }
{
    match done {
        Done::Taken { effect, air, .. } => after_cast(channel, rates, effect, air),
        Done::Sent { effect, air } => after_cast(channel, rates, effect, air),
        _ => Ok(()),
    }
}

/// Decides what happens to the copies that an event of the input made.
pub fn after_given(channel: &mut Channel, rates: &Rates, done: &Done) -> Result<(), NoMemory>
    requires tick { channel.old.tick ≤ GREATEST_TICK }
    requires answer { HasAnswer done.now }
    ensures decided { OnOk result ((m n : RunState) (e : worlds.Event) → IsAnswerOf m e n done.now
        → channel.new ≡ channels.after_given rates.now (world_of m) (outcome_at m e) channel.old) }
    ensures tick { OnOk result (channel.new.tick ≡ channel.old.tick) }
    ensures few { OnOk result
        (length channel.new.left ≤ length channel.old.left + 3 * MOST_NODES) }
{
    match done {
        Done::Doubled { id, .. } => channel.delay_double(rates, *id),
        _ => after_chosen(channel, rates, done),
    }
}
