//! The choice of the next event.
ghost use Rattle.std.specs.Prelude.{◌≡◌, ◌<◌, ◌≤◌, length, is_some, true, IfSome, option_map};
ghost use Rattle.mesh_model.specs.InMesh.{IsEvent};
ghost use Rattle.mesh_model.specs.Choices.{pick, first_copy};
ghost use Rattle.mesh_meaning.specs.Events.{event_of};
ghost use Rattle.mesh_text.specs.Lines.{event_command};
ghost use Rattle.mesh_text.specs.Ranges.{AreArgumentsInRange};
ghost use Rattle.mesh_text.specs.Schedule.{world_of};
ghost use Rattle.mesh_script.specs.Seen.{IsPrintable};

use crate::point::Point;
use mesh_base::Event;
use mesh_script::Line;
use mesh_world::{Steps, World};

// The least copy in flight.
fn first_copy_of(world: &World) -> Option<u64>
    ensures value { result ≡ first_copy world.now.world }
    ensures some { IfSome result (λ id. 1 ≤ id) }
{
    let radio = world.radio();
    // The copies are numbered from 1.
    let _copies = radio.count();
    radio.first_id()
}

/// The event that a run chooses next: the first that there is of a turn, a delivery, the send of a
/// stored datum, and a request, each at the least node, copy or destination. Nothing is searched.
/// It is inlined, so that the event is written directly to where it is kept, and isn't returned
/// through memory first.
#[inline(always)]
pub fn pick(world: &World) -> Option<Event<'static>>
    ensures value { option_map event_of result ≡ pick world.now.world }
    ensures within { IfSome result (λ e. IsEvent (length world.now.mesh) (event_of e)) }
    ensures in_range { IfSome result (λ e.
        AreArgumentsInRange (event_command world.now.mesh (event_of e)).arguments) }
{
    if let Some(node) = world.first_turn() {
        return Some(Event::Turn { node });
    }
    if let Some(id) = first_copy_of(world) {
        return Some(Event::Deliver { id });
    }
    if let Some((node, dest)) = world.first_send() {
        return Some(Event::Send { node, dest });
    }
    let (node, dest) = world.first_ask()?;
    Some(Event::Ask { node, dest })
}

/// The event that the run chooses next. It is inlined for the same reason as `pick`.
#[inline(always)]
pub fn next_event<S: Steps>(at: &Point<S>) -> Option<Event<'static>>
    requires { is_some at.now.world ≡ true }
    ensures value { option_map event_of result ≡ pick (world_of at.now) }
    ensures printable { IfSome result (λ e. IsPrintable at.now.mesh (Line.Step e)) }
{
    let Some(state) = at.world() else {
        unreachable!();
    };
    let world = state.world();
    // For the proof: a world is sound, so its mesh has nodes, and no more than a mesh may have.
    let _mesh = world.mesh();
    pick(world)
}
