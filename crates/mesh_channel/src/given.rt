//! An event of the input, and what is decided of the copies that it made.
ghost use Rattle.std.specs.Prelude.{◌≡◌, ◌<◌, ◌≤◌, ◌+◌, [], length, drop, slice_get, is_some, true, option_map, OnOk, IfSome};
ghost use Rattle.mesh_base.specs.Bounds.{most_lines, most_steps};
ghost use Rattle.mesh_meaning.specs.Events.{event_of};
ghost use Rattle.mesh_text.specs.Schedule.{Does, with_world};
ghost use Rattle.mesh_text.specs.Auto.{outcome_of_events};
ghost use Rattle.mesh_script.specs.Seen.{IsPrintable};
ghost use Rattle.mesh_script.specs.declared.line.Line.{Line};
ghost use Rattle.mesh_run.specs.Outputs.{says_lines};
ghost use Rattle.mesh_run.specs.Causes.{HasStopCause};
ghost use Rattle.mesh_run.specs.Runs.{IsEventsRun, IsLineOf, IsLineRun};
ghost use Rattle.mesh_channel.specs.Chosen.{given};
ghost use Rattle.mesh_channel.specs.Text.{outcome_of_drawn};
ghost use Rattle.mesh_channel.specs.RunStates.{run_state_of, moved, counted_of};
ghost use Rattle.mesh_channel.specs.Room.{most_left, most_events, HasFewCopies, CanLead};

use crate::channeled::Channeled;
use crate::event::{after_given, do_event};
use crate::until::LAST_TICK;
use mesh_base::{Done, Event};
use mesh_io::Sink;
use mesh_run::Stop;

// Takes the next event that is decided and left to do.
fn next_left(at: &mut Channeled) -> Option<Event<'static>>
    requires { 1 ≤ length at.old.point.mesh }
    ensures next { option_map event_of result ≡ slice_get at.old.channel.left 0 }
    ensures left { at.new.channel
        ≡ record at.old.channel { left = drop 1 at.old.channel.left } }
    ensures printable { IfSome result (λ e. IsPrintable at.old.point.mesh (Line.Step e)) }
    ensures only { at.new ≡ record at.old { channel = at.new.channel } }
{
    at.channel.next_left()
}

// Does all events that are decided and left to do.
fn do_left<O: Sink>(at: &mut Channeled, out: &mut O) -> Result<(), Stop<'static>>
    requires started { is_some at.old.point.world ≡ true }
    requires some { 1 ≤ length at.old.point.mesh }
    requires copies { HasFewCopies at.old.point }
    requires few { at.old.point.steps + length at.old.channel.left < most_steps }
    ensures ran { IsEventsRun (says_lines at.old.say) at.old.point
        (outcome_of_events at.old.point at.old.channel.left)
        at.new.point (O.held out.old) (O.held out.new) (counted_of result) }
    ensures channel { OnOk result (at.new.channel ≡ record at.old.channel { left = [] }) }
    ensures only { at.new ≡ moved at.old (run_state_of at.new) }
    ensures lines { OnOk result (at.new.point.lines ≡ at.old.point.lines) }
    ensures steps { OnOk result
        (at.new.point.steps ≡ at.old.point.steps + length at.old.channel.left) }
    ensures copies { OnOk result (HasFewCopies at.new.point) }
    ensures cause { HasStopCause (O.faults out.old) (O.faults out.new) result }
{
    'left: while let Some(event) = next_left(at) {
        let mut done = Done::Idle;
        if let Err(stop) = do_event(at, None, event, &mut done, out) {
            return Err(stop);
        }
    }
    Ok(())
}

/// Does a line with one event: starts the run if that is due, does the event and then what is
/// decided of the copies that it made, and counts the line. If `at.say` asks for it, writes the
/// event as its line was read, and each of the others as a line of its own.
pub fn do_given<'a, O: Sink>(
    at: &mut Channeled,
    bytes: &[u8],
    event: Event<'a>,
    out: &mut O,
) -> Result<(), Stop<'a>>
    requires few { at.old.point.lines < most_lines }
    requires steps { at.old.point.steps + most_events < most_steps }
    requires tick { at.old.channel.tick ≤ LAST_TICK }
    requires left { length at.old.channel.left ≤ most_left }
    requires copies { HasFewCopies at.old.point }
    requires printable { IsPrintable at.old.point.mesh (Line.Step event) }
    requires echo { IsLineOf at.old.point.mesh (Does (event_of event)) bytes.now }
    ensures comes { IsLineRun (says_lines at.old.say) at.old.point (outcome_of_drawn at.old.point
        (given at.old.rates (with_world at.old.point) (event_of event.entry)
        at.old.channel).events)
        at.new.point (O.held out.old) (O.held out.new) result }
    ensures channel { OnOk result (at.new.channel ≡ (given at.old.rates (with_world at.old.point)
        (event_of event.entry) at.old.channel).channel) }
    ensures only { at.new ≡ moved at.old (run_state_of at.new) }
    ensures led { OnOk result (CanLead at.old 1 at.new) }
    ensures cause { HasStopCause (O.faults out.old) (O.faults out.new) result }
{
    at.point.begin(at.alloc)?;
    let mut done = Done::Idle;
    if let Err(stop) = do_event(at, Some(bytes), event, &mut done, out) {
        return Err(stop);
    }
    after_given(&mut at.channel, &at.rates, &done)?;
    if let Err(stop) = do_left(at, out) {
        return Err(stop);
    }
    at.point.count_line();
    Ok(())
}
