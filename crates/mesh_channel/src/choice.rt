//! What the channel does next.
ghost use Rattle.std.specs.Prelude.{◌≡◌, ◌≤◌, length, ℕ, option_map, IfSome};
ghost use Rattle.mesh_model.specs.InMesh.{IsEvent};
ghost use Rattle.mesh_meaning.specs.Events.{event_of};
ghost use Rattle.mesh_text.specs.Lines.{event_command};
ghost use Rattle.mesh_text.specs.Ranges.{AreArgumentsInRange};
ghost use Rattle.mesh_channel.specs.Choices as choices;
ghost use Rattle.mesh_fates.specs.Channels as channels;
ghost use Rattle.mesh_channel.specs.RunStates.{choice_of, IsLeftBehind};
ghost use Rattle.mesh_base.specs.Meshes.{Nodes};

use crate::until::{LAST_TICK, Until};
use mesh_base::Event;
use mesh_fates::Channel;
use mesh_world::World;

// Takes the copies that a line of the input has delivered or lost off the front of the plan.
fn look(world: &World, channel: &mut Channel)
    ensures { channel.new ≡ choices.looked_at world.now.world channel.old }
{
    let radio = world.radio();
    'dues: while let Some(due) = channel.first_due() {
        if radio.receiver(due.id).is_some() {
            return;
        }
        channel.take_due();
    }
}

// A send, or else a request, each at the least node and destination.
fn by_nodes(world: &World) -> Option<Event<'static>>
    ensures value { (c : channels.Channel)
        → choice_of (option_map event_of result) c ≡ choices.by_nodes world.now.world c }
    ensures within { IfSome result (λ e. IsEvent (length world.now.mesh) (event_of e)) }
    ensures in_range { IfSome result (λ e.
        AreArgumentsInRange (event_command world.now.mesh (event_of e)).arguments) }
{
    if let Some((node, dest)) = world.first_send() {
        return Some(Event::Send { node, dest });
    }
    let (node, dest) = world.first_ask()?;
    Some(Event::Ask { node, dest })
}

// The delivery of the first copy of the plan, if it is due by this tick; otherwise a send or a
// request.
fn due_or(world: &World, channel: &mut Channel) -> Option<Event<'static>>
    ensures value { choice_of (option_map event_of result) channel.new
        ≡ choices.due_or world.now.world channel.old channel.old.plan }
    ensures left { channel.new.left ≡ channel.old.left }
    ensures tick { channel.new.tick ≡ channel.old.tick }
    ensures within { IfSome result (λ e. IsEvent (length world.now.mesh) (event_of e)) }
    ensures in_range { IfSome result (λ e.
        AreArgumentsInRange (event_command world.now.mesh (event_of e)).arguments) }
{
    if let Some(due) = channel.first_due() {
        if due.tick <= channel.tick() {
            channel.take_due();
            return Some(Event::Deliver { id: due.id });
        }
    }
    by_nodes(world)
}

// What is done next in a tick: what is decided and left to do, then a turn at the least node, then
// the first copy that is due, then a send, then a request.
fn in_tick(world: &World, channel: &mut Channel) -> Option<Event<'static>>
    ensures value { choice_of (option_map event_of result) channel.new
        ≡ choices.in_tick world.now.world channel.old }
    ensures left { IsLeftBehind channel.old (option_map event_of result) channel.new }
    ensures tick { channel.new.tick ≡ channel.old.tick }
    ensures within { IfSome result (λ e. IsEvent (length world.now.mesh) (event_of e)) }
    ensures in_range { IfSome result (λ e.
        AreArgumentsInRange (event_command world.now.mesh (event_of e)).arguments) }
{
    if let Some(event) = channel.next_left() {
        return Some(event);
    }
    if let Some(node) = world.first_turn() {
        return Some(Event::Turn { node });
    }
    look(world, channel);
    due_or(world, channel)
}

// What comes when a tick is over: the delivery of the copy that is due next, in its tick; None if
// the line ends.
fn next_tick(until: &Until, did: u64, channel: &mut Channel) -> Option<Event<'static>>
    ensures value { choice_of (option_map event_of result) channel.new
        ≡ choices.next_tick until.now did channel.old }
    ensures left { channel.new.left ≡ channel.old.left }
    ensures tick { channel.old.tick ≤ LAST_TICK → choices.last_tick until.now ≤ LAST_TICK
        → channel.new.tick ≤ LAST_TICK }
    ensures within { (size : ℕ) → IfSome result (λ e. IsEvent size (event_of e)) }
    ensures in_range { (mesh : Nodes) → IfSome result (λ e.
        AreArgumentsInRange (event_command mesh (event_of e)).arguments) }
{
    if until.is_enough(did) {
        return None;
    }
    if let Some(due) = channel.first_due() {
        if due.tick <= until.last_tick() {
            channel.take_due();
            channel.set_tick(due.tick);
            return Some(Event::Deliver { id: due.id });
        }
    }
    if let Until::Tick { last } = *until {
        channel.set_tick(last);
    }
    None
}

/// The next event of a line that has done `did` events. It goes neither through all nodes nor
/// through all copies in flight.
pub fn next_choice(
    until: &Until,
    did: u64,
    world: &World,
    channel: &mut Channel,
) -> Option<Event<'static>>
    ensures value { choice_of (option_map event_of result) channel.new
        ≡ choices.next_choice until.now did world.now.world channel.old }
    ensures left { IsLeftBehind channel.old (option_map event_of result) channel.new }
    ensures tick { channel.old.tick ≤ LAST_TICK → choices.last_tick until.now ≤ LAST_TICK
        → channel.new.tick ≤ LAST_TICK }
    ensures within { IfSome result (λ e. IsEvent (length world.now.mesh) (event_of e)) }
    ensures in_range { IfSome result (λ e.
        AreArgumentsInRange (event_command world.now.mesh (event_of e)).arguments) }
{
    match in_tick(world, channel) {
        Some(event) => Some(event),
        None => next_tick(until, did, channel),
    }
}
