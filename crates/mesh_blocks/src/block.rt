//! The node that an event changes, and its block.
ghost use Rattle.std.specs.Prelude.{◌≡◌, ◌<◌, List, ℕ, Some, length, is_some, true, IfSome, OnOk};
ghost use Rattle.mesh_base.specs.Meshes.{Nodes};
ghost use Rattle.mesh_io.specs.Cause.{HasCause};
ghost use Rattle.mesh_io.specs.Puts.{Puts};
ghost use Rattle.mesh_model.specs.Worlds as worlds;
ghost use Rattle.mesh_model.specs.Worlds.{Deliver, step};
ghost use Rattle.mesh_model.specs.InMesh.{IsEvent};
ghost use Rattle.mesh_meaning.specs.Answers.{outcome_in, IsDoneInMesh};
ghost use Rattle.mesh_meaning.specs.Events.{event_of};
ghost use Rattle.mesh_blocks.specs.Blocks.{changed_by, shown_node};
ghost use Rattle.mesh_blocks.specs.Lines.{IsBlockBefore};

use crate::draft::Draft;
use mesh_base::{Done, Event, NoMemory};
use mesh_io::{PutFault, Sink};
use mesh_report::put_line;
use mesh_run::State;
use mesh_script::Line;
use mesh_show::put_node;
use mesh_world::{Steps, World};

/// The node whose state an event has changed, by what it did.
pub fn changed_by(event: &Event<'_>, done: &Done) -> Option<usize>
    ensures value { (mesh : Nodes) (x : ℕ) (w : worlds.World) (packet : List ℕ) → result
        ≡ changed_by (event_of event.now) (outcome_in mesh x w done.now packet) }
    ensures within { (mesh : Nodes) (packet : List ℕ) → IsEvent (length mesh) (event_of event.now)
        → IsDoneInMesh mesh done.now packet → IfSome result (λ x. x < length mesh) }
{
    if let Done::Idle = done {
        return None;
    }
    match event {
        Event::Give { node, .. } => Some(*node),
        Event::Turn { node } => Some(*node),
        Event::Send { node, .. } => Some(*node),
        Event::Ask { node, .. } => Some(*node),
        Event::Deliver { .. } => heard_by(done),
        _ => None,
    }
}

// The receiver of a copy that was heard.
fn heard_by(done: &Done) -> Option<usize>
    ensures value { (mesh : Nodes) (x id : ℕ) (w : worlds.World) (packet : List ℕ) → result
        ≡ changed_by (Deliver id) (outcome_in mesh x w done.now packet) }
    ensures within { (mesh : Nodes) (packet : List ℕ) → IsDoneInMesh mesh done.now packet
        → IfSome result (λ x. x < length mesh) }
{
    match done {
        Done::Heard { to, .. } => Some(*to),
        _ => None,
    }
}

// The node that an event will change, if it changes one.
fn node_of(world: &World, event: &Event<'_>) -> Option<usize>
    requires { IsEvent (length world.now.mesh) (event_of event.now) }
    ensures value { (x : ℕ)
        → changed_by (event_of event.now) (step world.now.world (event_of event.now)) ≡ Some x
        → result ≡ Some x }
    ensures within { IfSome result (λ x. x < length world.now.mesh) }
{
    match event {
        Event::Give { node, .. } => Some(*node),
        Event::Turn { node } => Some(*node),
        Event::Send { node, .. } => Some(*node),
        Event::Ask { node, .. } => Some(*node),
        Event::Deliver { id } => receiver(world, *id),
        _ => None,
    }
}

// The receiver of the copy of this id, if one flies.
fn receiver(world: &World, id: u64) -> Option<usize>
    ensures value { (x : ℕ) → changed_by (Deliver id) (step world.now.world (Deliver id)) ≡ Some x
        → result ≡ Some x }
    ensures within { IfSome result (λ x. x < length world.now.mesh) }
{
    // The contract of `mesh` says that the world is sound.
    let _mesh = world.mesh();
    world.radio().receiver(id)
}

/// Writes a node as a line `show` shows it.
pub fn put_shown<O: Sink>(state: &State<World>, node: usize, out: &mut O) -> Result<(), PutFault>
    requires started { is_some state.now.world ≡ true }
    requires node { node < length state.now.mesh }
    ensures text { Puts (O.held out.old) (O.held out.new) (shown_node state.now node) result }
    ensures cause { HasCause (O.faults out.old) (O.faults out.new) result }
{
    let Some(made) = state.world() else {
        unreachable!();
    };
    let world = made.world();
    put_line(world.mesh(), &Line::Show { node }, out)?;
    put_node(world.mesh(), world.node(node), out)
}

/// Writes a node's block to the draft, in place of what the draft held.
pub fn draw_block(state: &State<World>, node: usize, draft: &mut Draft) -> Result<(), NoMemory>
    requires started { is_some state.now.world ≡ true }
    requires node { node < length state.now.mesh }
    ensures { OnOk result (draft.new.bytes.items ≡ shown_node state.now node) }
{
    draft.clear();
    match put_shown(state, node, draft) {
        Ok(()) => Ok(()),
        Err(_) => Err(NoMemory),
    }
}

/// Writes to the draft, in place of what it held, the block of the node that an event will change,
/// if the event changes a node.
pub fn draw_block_before(
    state: &State<World>,
    event: &Event<'_>,
    draft: &mut Draft,
) -> Result<(), NoMemory>
    requires started { is_some state.now.world ≡ true }
    requires event { IsEvent (length state.now.mesh) (event_of event.now) }
    ensures { OnOk result (IsBlockBefore state.now (event_of event.now) draft.new.bytes.items) }
{
    let Some(made) = state.world() else {
        unreachable!();
    };
    match node_of(made.world(), event) {
        Some(node) => draw_block(state, node, draft),
        None => Ok(()),
    }
}
