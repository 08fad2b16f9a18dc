//! Events that the run chooses, one after another, each with what is written below it.
ghost use Rattle.std.specs.Prelude.{◌≡◌, ◌<◌, ◌+◌, length, is_some, true, OnOk, IfOk};
ghost use Rattle.mesh_base.specs.Bounds.{most_lines, most_steps, most_steps_before_line};
ghost use Rattle.mesh_text.specs.Schedule.{Chooses};
ghost use Rattle.mesh_text.specs.Auto.{events_chosen};
ghost use Rattle.mesh_script.specs.Seen.{IsPrintable};
ghost use Rattle.mesh_run.specs.Causes.{HasStopCause};
ghost use Rattle.mesh_run.specs.Runs.{IsLineOf, IsLineRun, IsEventsRun};
ghost use Rattle.mesh_blocks.specs.Text.{watched_events, watched_line};

use crate::below::Below;
use crate::draft::Drafts;
use crate::event::do_event;
use mesh_io::Sink;
use mesh_report::{put_auto_end, put_echo};
use mesh_run::{Point, Stop, next_event};
use mesh_script::Line;
use mesh_world::World;
use std::alloc::Global;

// Does at most `count` events, each chosen after the one before it is done, and answers how many it
// did.
fn do_events<O: Sink>(
    alloc: Global,
    at: &mut Point<World>,
    below: Below,
    drafts: &mut Drafts,
    count: u32,
    out: &mut O,
) -> Result<u32, Stop<'static>>
    requires started { is_some at.old.world ≡ true }
    requires few { at.old.steps + count < most_steps }
    ensures ran { let watched = watched_events below at.old (events_chosen count at.old) in
        IsEventsRun true at.old watched at.new (O.held out.old) (O.held out.new) result }
    ensures did { IfOk result (λ did. did ≡ length (events_chosen count at.old)) }
    ensures lines { OnOk result (at.new.lines ≡ at.old.lines) }
    ensures cause { HasStopCause (O.faults out.old) (O.faults out.new) result }
{
    let mut did: u32 = 0;
    'events: while did < count {
        let Some(event) = next_event(at) else {
            return Ok(did);
        };
        if let Err(stop) = do_event(alloc, at, below, drafts, None, event, out) {
            return Err(stop);
        }
        did += 1;
    }
    Ok(did)
}

/// Does a line of events that the run chooses: starts the run if that is due, writes the line as it
/// was read, the events with what is below each, and how many there were, and counts the line.
pub fn do_auto<O: Sink>(
    alloc: Global,
    at: &mut Point<World>,
    below: Below,
    drafts: &mut Drafts,
    bytes: &[u8],
    count: u32,
    out: &mut O,
) -> Result<(), Stop<'static>>
    requires few { at.old.lines < most_lines }
    requires steps { at.old.steps < most_steps_before_line }
    requires printable { IsPrintable at.old.mesh (Line.Auto count) }
    requires echo { IsLineOf at.old.mesh (Chooses count) bytes.now }
    ensures comes { IsLineRun true at.old (watched_line below at.old (Chooses count))
        at.new (O.held out.old) (O.held out.new) result }
    ensures cause { HasStopCause (O.faults out.old) (O.faults out.new) result }
{
    at.begin(alloc)?;
    put_echo(bytes, out)?;
    let did = match do_events(alloc, at, below, drafts, count, out) {
        Ok(did) => did,
        Err(stop) => return Err(stop),
    };
    put_auto_end(did, out)?;
    at.count_line();
    Ok(())
}
