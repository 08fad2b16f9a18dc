//! The changes of links that follow when a node comes to a place.
ghost use Rattle.std.specs.Prelude.{◌≡◌, ◌≤◌, ◌<◌, length, OnOk, IfErr};
ghost use Rattle.mesh_base.specs.Bounds.{most_steps, most_steps_before_line};
ghost use Rattle.mesh_io.specs.Cause.{HasCause};
ghost use Rattle.mesh_io.specs.Puts.{Puts};
ghost use Rattle.mesh_model.specs.Worlds.{range};
ghost use Rattle.mesh_meaning.specs.Events.{event_of};
ghost use Rattle.mesh_text.specs.Schedule.{world_of, next_state};
ghost use Rattle.mesh_text.specs.Runs.{run_state_after};
ghost use Rattle.mesh_base.specs.declared.limits.TheConstants.{MOST_NODES};
ghost use Rattle.mesh_run.specs.Causes.{HasStopCause};
ghost use Rattle.mesh_grid.specs.Links.{change_at};
ghost use Rattle.mesh_grid.specs.Text.{changes, change_line};
ghost use Rattle.mesh_grid.specs.Runs.{events_of_placing};
ghost use Rattle.mesh_places.specs.RunStates.{IsChange, IsWant, below, change_lines, run_state_of};

use crate::placed::Placed;
use mesh_base::{Event, NoMemory, NodeSet, short};
use mesh_grid::Placing;
use mesh_io::{PutFault, Sink, put_all};
use mesh_report::put_line;
use mesh_run::{Point, Stop};
use mesh_script::Line;
use mesh_world::{StepError, World};
use std::alloc::Global;

// The nodes that a node is linked to. Before there is a world no link stands.
fn range_of(at: &Point<World>, node: usize) -> NodeSet
    requires { node < length at.now.mesh }
    ensures { result ≡ range (world_of at.now) node }
{
    match at.world() {
        Some(world) => {
            // For the proof: a world is sound, so its nodes are those of its mesh.
            let _mesh = world.mesh();
            world.radio().range(node)
        }
        None => NodeSet::new(),
    }
}

// Writes a change, on a line below that of the node.
fn put_change<O: Sink>(at: &Point<World>, event: Event<'_>, out: &mut O) -> Result<(), PutFault>
    requires { IsChange (length at.now.mesh) (event_of event) }
    ensures text { Puts (O.held out.old) (O.held out.new)
        (change_line at.now.mesh (event_of event.entry)) result }
    ensures cause { HasCause (O.faults out.old) (O.faults out.new) result }
{
    out.put_short(&short(b"  "))?;
    put_line(at.state.mesh(), &Line::Step(event), out)
}

// Does one change, in the opening world if there is none yet. Making or cutting a link fills no
// counter.
fn step_change(alloc: Global, at: &mut Point<World>, event: &Event<'_>) -> Result<(), NoMemory>
    requires change { IsChange (length at.old.mesh) (event_of event.now) }
    requires few { at.old.steps < most_steps }
    ensures run_state { OnOk result (at.new ≡ next_state at.old (event_of event.now)) }
{
    at.begin(alloc)?;
    let state = &mut at.state;
    match state.step_counted(alloc, event, &mut at.packet, false, &mut at.done) {
        Ok(()) => Ok(()),
        Err(StepError::NoMemory) => Err(NoMemory),
        Err(StepError::Full { .. }) => unreachable!(),
    }
}

// Does the change with node `y` that follows when a node comes to a place, if there is one, and
// writes it. `near` are the nodes that are linked to the node that comes.
fn do_change<O: Sink>(
    at: &mut Placed,
    near: &NodeSet,
    new: &Placing,
    y: usize,
    out: &mut O,
) -> Result<(), Stop<'static>>
    requires node { new.now.node < length at.old.point.mesh }
    requires other { y < length at.old.point.mesh }
    requires nodes { length at.old.point.mesh ≤ MOST_NODES }
    requires few { at.old.point.steps < most_steps }
    ensures run_state { OnOk result (at.new.point
        ≡ run_state_after at.old.point (change_at at.old.reach at.old.places near.now new.now y)) }
    ensures only { at.new ≡ record at.old { point = at.new.point } }
    ensures text { Puts (O.held out.old) (O.held out.new)
        (change_lines at.old.point.mesh
        (change_at at.old.reach at.old.places near.now new.now y)) result }
    ensures stops { IfErr result IsWant }
    ensures cause { HasStopCause (O.faults out.old) (O.faults out.new) result }
{
    let Some(event) = at.places.change_at(at.reach, near, new, y) else {
        return Ok(());
    };
    step_change(at.alloc, &mut at.point, &event)?;
    put_change(&at.point, event, out)?;
    Ok(())
}

// Does the changes that follow when a node comes to a place, and writes each below the node's line.
fn do_changes<O: Sink>(at: &mut Placed, new: &Placing, out: &mut O) -> Result<(), Stop<'static>>
    requires node { new.now.node < length at.old.point.mesh }
    requires nodes { length at.old.point.mesh ≤ MOST_NODES }
    requires few { at.old.point.steps < most_steps_before_line }
    ensures run_state { OnOk result (at.new.point
        ≡ run_state_after at.old.point (changes at.old.reach (run_state_of at.old) new.now)) }
    ensures only { at.new ≡ record at.old { point = at.new.point } }
    ensures text { Puts (O.held out.old) (O.held out.new)
        (change_lines at.old.point.mesh
        (changes at.old.reach (run_state_of at.old) new.now)) result }
    ensures stops { IfErr result IsWant }
    ensures cause { HasStopCause (O.faults out.old) (O.faults out.new) result }
{
    let near = range_of(&at.point, new.node);
    for y in 0..at.point.mesh().len() {
        do_change(at, &near, new, y, out)?;
    }
    Ok(())
}

/// Does what follows from a line about a place, and writes it below the line: the changes, or
/// `idle` if the node may not come there.
pub fn do_coming<O: Sink>(at: &mut Placed, new: &Placing, out: &mut O) -> Result<(), Stop<'static>>
    requires node { new.now.node < length at.old.point.mesh }
    requires nodes { length at.old.point.mesh ≤ MOST_NODES }
    requires few { at.old.point.steps < most_steps_before_line }
    ensures run_state { OnOk result (at.new.point ≡ run_state_after at.old.point
        (events_of_placing at.old.reach (run_state_of at.old) new.now)) }
    ensures only { at.new ≡ record at.old { point = at.new.point } }
    ensures text { Puts (O.held out.old) (O.held out.new)
        (below at.old.reach (run_state_of at.old) new.now) result }
    ensures stops { IfErr result IsWant }
    ensures cause { HasStopCause (O.faults out.old) (O.faults out.new) result }
{
    if at.places.may_come(new) {
        return do_changes(at, new, out);
    }
    put_all(out, b"  idle\n")?;
    Ok(())
}
