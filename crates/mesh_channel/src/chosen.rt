//! The events of a line, as the channel chooses them.
ghost use Rattle.std.specs.Prelude.{◌≡◌, ◌<◌, ◌≤◌, ◌-◌, length, is_some, true, max, option_map, OnOk, IfSome};
ghost use Rattle.mesh_base.specs.Bounds.{most_lines};
ghost use Rattle.mesh_meaning.specs.Events.{event_of};
ghost use Rattle.mesh_text.specs.Schedule.{world_of};
ghost use Rattle.mesh_text.specs.Auto.{outcome_of_events};
ghost use Rattle.mesh_script.specs.Seen.{IsPrintable};
ghost use Rattle.mesh_script.specs.declared.line.Line.{Line};
ghost use Rattle.mesh_run.specs.Outputs.{says_lines};
ghost use Rattle.mesh_run.specs.Causes.{HasStopCause};
ghost use Rattle.mesh_run.specs.Runs.{IsEventsRun, IsLineRun};
ghost use Rattle.mesh_channel.specs.Choices as choices;
ghost use Rattle.mesh_channel.specs.Chosen.{chosen_from, chosen};
ghost use Rattle.mesh_channel.specs.Text.{outcome_of_drawn};
ghost use Rattle.mesh_channel.specs.RunStates.{run_state_of, moved, choice_of, counted_of, IsLeftBehind};
ghost use Rattle.mesh_channel.specs.Room.{most_left, HasFewCopies, CanLead};

use crate::channeled::Channeled;
use crate::choice::next_choice;
use crate::event::{after_chosen, do_event};
use crate::until::{LAST_TICK, MOST_CHOSEN, Until};
use mesh_base::{Done, Event};
use mesh_io::Sink;
use mesh_run::Stop;
use mesh_world::Steps;

// How many more events the channel may choose, once a run has started.
fn most_of(at: &Channeled) -> u64
    requires { is_some at.now.point.world ≡ true }
    ensures { result ≡ MOST_CHOSEN - at.now.point.steps }
{
    let Some(world) = at.point.world() else {
        unreachable!();
    };
    MOST_CHOSEN.saturating_sub(world.world().steps())
}

// The next event of a line that has done `did` events.
fn choose(at: &mut Channeled, until: &Until, did: u64) -> Option<Event<'static>>
    requires { is_some at.old.point.world ≡ true }
    ensures value { choice_of (option_map event_of result) at.new.channel
        ≡ choices.next_choice until.now did (world_of at.old.point) at.old.channel }
    ensures left { IsLeftBehind at.old.channel (option_map event_of result) at.new.channel }
    ensures tick { at.old.channel.tick ≤ LAST_TICK → choices.last_tick until.now ≤ LAST_TICK
        → at.new.channel.tick ≤ LAST_TICK }
    ensures printable { IfSome result (λ e. IsPrintable at.old.point.mesh (Line.Step e)) }
    ensures only { at.new ≡ record at.old { channel = at.new.channel } }
{
    let Some(world) = at.point.world() else {
        unreachable!();
    };
    let world = world.world();
    // For the proof: a world is sound, so its mesh has nodes, and no more than a mesh may have.
    let _mesh = world.mesh();
    next_choice(until, did, world, &mut at.channel)
}

// Does at most `most` events, each of which the channel chooses after the one before it is done.
fn do_events<O: Sink>(
    at: &mut Channeled,
    until: &Until,
    most: u64,
    out: &mut O,
) -> Result<(), Stop<'static>>
    requires started { is_some at.old.point.world ≡ true }
    requires last { choices.last_tick until.now ≤ LAST_TICK }
    requires tick { at.old.channel.tick ≤ LAST_TICK }
    requires left { length at.old.channel.left ≤ most_left }
    requires copies { HasFewCopies at.old.point }
    requires most { most ≡ MOST_CHOSEN - at.old.point.steps }
    ensures ran { IsEventsRun (says_lines at.old.say) at.old.point (outcome_of_events at.old.point
        (chosen_from most at.old.rates until.now 0 at.old.point at.old.channel).events)
        at.new.point (O.held out.old) (O.held out.new) (counted_of result) }
    ensures channel { OnOk result (at.new.channel
        ≡ (chosen_from most at.old.rates until.now 0 at.old.point at.old.channel).channel) }
    ensures only { at.new ≡ moved at.old (run_state_of at.new) }
    ensures lines { OnOk result (at.new.point.lines ≡ at.old.point.lines) }
    ensures steps { OnOk result (at.new.point.steps ≤ max at.old.point.steps MOST_CHOSEN) }
    ensures tick { OnOk result (at.new.channel.tick ≤ LAST_TICK) }
    ensures left { OnOk result (length at.new.channel.left ≤ most_left) }
    ensures copies { OnOk result (HasFewCopies at.new.point) }
    ensures cause { HasStopCause (O.faults out.old) (O.faults out.new) result }
{
    let mut did: u64 = 0;
    'events: while did < most {
        let Some(event) = choose(at, until, did) else {
            return Ok(());
        };
        let mut done = Done::Idle;
        if let Err(stop) = do_event(at, None, event, &mut done, out) {
            return Err(stop);
        }
        after_chosen(&mut at.channel, &at.rates, &done)?;
        did += 1;
    }
    Ok(())
}

/// Does a line whose events the channel chooses, and counts it. Each event is written as a line of
/// its own, if `at.say` asks for it. Before the run has started the channel chooses none.
pub fn do_chosen<O: Sink>(
    at: &mut Channeled,
    until: &Until,
    out: &mut O,
) -> Result<(), Stop<'static>>
    requires few { at.old.point.lines < most_lines }
    requires last { choices.last_tick until.now ≤ LAST_TICK }
    requires tick { at.old.channel.tick ≤ LAST_TICK }
    requires left { length at.old.channel.left ≤ most_left }
    requires copies { HasFewCopies at.old.point }
    ensures comes { IsLineRun (says_lines at.old.say) at.old.point (outcome_of_drawn at.old.point
        (chosen at.old.rates until.now at.old.point at.old.channel).events)
        at.new.point (O.held out.old) (O.held out.new) result }
    ensures channel { OnOk result (at.new.channel
        ≡ (chosen at.old.rates until.now at.old.point at.old.channel).channel) }
    ensures only { at.new ≡ moved at.old (run_state_of at.new) }
    ensures led { OnOk result (CanLead at.old 1 at.new) }
    ensures cause { HasStopCause (O.faults out.old) (O.faults out.new) result }
{
    let started = at.point.world().is_some();
    if !started {
        at.point.count_line();
        return Ok(());
    }
    let most = most_of(at);
    if let Err(stop) = do_events(at, until, most, out) {
        return Err(stop);
    }
    at.point.count_line();
    Ok(())
}
