//! What a run shows of its world: a node, where a route leads, and the copies in flight.
ghost use Rattle.std.specs.Prelude.{◌≡◌, ◌<◌, ◌+◌, ◌++◌, length, map, slice_get, is_some, true, Some};
ghost use Rattle.std.specs.List.{AllByRecursion};
ghost use Rattle.mesh_model.specs.Routes.{route_end};
ghost use Rattle.mesh_meaning.specs.Packets.{IsWrittenCopy, copy_in};
ghost use Rattle.mesh_text.specs.Schedule.{ShowsNode, ShowsRoute, ShowsFlight, world_of};
ghost use Rattle.mesh_text.specs.Lines.{words_of};
ghost use Rattle.mesh_grammar.specs.Written.{line};
ghost use Rattle.mesh_text.specs.Tables.{node_text_in, end_text, flight_text};
ghost use Rattle.mesh_io.specs.Cause.{HasCause};
ghost use Rattle.mesh_io.specs.Puts.{Puts};
ghost use Rattle.mesh_text.specs.Ranges.{IsInRange};
ghost use Rattle.mesh_text.specs.Text.{outcome_of_line, text_in};
ghost use Rattle.mesh_run.specs.Causes.{HasStopCause};
ghost use Rattle.mesh_run.specs.Runs.{line_of_shown, IsLineOf, IsUncountedRun};
ghost use Rattle.mesh_world.specs.Ends.{end_in, IsEndIn};

use crate::point::Point;
use crate::stop::Stop;
use mesh_base::Mesh;
use mesh_io::{PutFault, Sink};
use mesh_radio::Radio;
use mesh_report::{put_echo, put_flying_view, put_number, put_stuck};
use mesh_show::put_node;
use mesh_world::{End, Steps};

/// What a line shows.
#[derive(Clone, Copy)]
pub enum Shown {
    Node { node: usize },
    Route { node: usize, dest: usize },
    Flight,
}

// Writes the line that shows a node, as it was read, and the node's state.
fn show_node<S: Steps, O: Sink>(
    at: &mut Point<S>,
    bytes: &[u8],
    node: usize,
    out: &mut O,
) -> Result<(), PutFault>
    requires started { is_some at.old.world ≡ true }
    requires node { node < length at.old.mesh }
    requires echo { IsLineOf at.old.mesh (ShowsNode node) bytes.now }
    ensures text { Puts (O.held out.old) (O.held out.new)
        (line (words_of at.old.mesh (ShowsNode node))
        ++ node_text_in at.old.mesh (slice_get (world_of at.old).nodes node)) result }
    ensures same { at.new ≡ at.old }
    ensures cause { HasCause (O.faults out.old) (O.faults out.new) result }
{
    let Some(state) = at.state.world() else {
        unreachable!();
    };
    let world = state.world();
    put_echo(bytes, out)?;
    put_node(world.mesh(), world.node(node), out)
}

// Writes the end of a route.
fn put_end<O: Sink>(mesh: &Mesh, end: End, out: &mut O) -> Result<(), PutFault>
    requires { IsEndIn (length mesh.now) end }
    ensures text { Puts (O.held out.old) (O.held out.new) (end_text mesh.now (end_in end)) result }
    ensures cause { HasCause (O.faults out.old) (O.faults out.new) result }
{
    match end {
        End::Arrived { hops } => put_number("arrived", hops as u64, out),
        End::Stuck { at, hops } => put_stuck(mesh, at, hops, out),
    }
}

// Writes the line that shows a route, as it was read, and where the valid routes of the node lead.
fn show_route<S: Steps, O: Sink>(
    at: &mut Point<S>,
    bytes: &[u8],
    node: usize,
    dest: usize,
    out: &mut O,
) -> Result<(), PutFault>
    requires started { is_some at.old.world ≡ true }
    requires node { node < length at.old.mesh }
    requires dest { dest < length at.old.mesh }
    requires echo { IsLineOf at.old.mesh (ShowsRoute node dest) bytes.now }
    ensures text { Puts (O.held out.old) (O.held out.new)
        (line (words_of at.old.mesh (ShowsRoute node dest))
        ++ end_text at.old.mesh (route_end (world_of at.old) node dest)) result }
    ensures same { at.new ≡ at.old }
    ensures cause { HasCause (O.faults out.old) (O.faults out.new) result }
{
    let Some(state) = at.state.world() else {
        unreachable!();
    };
    let world = state.world();
    put_echo(bytes, out)?;
    put_end(world.mesh(), world.follow(node, dest), out)
}

// Writes the copies in flight, by ascending id.
fn put_copies<O: Sink>(mesh: &Mesh, radio: &Radio, out: &mut O) -> Result<(), PutFault>
    requires size { radio.now.size ≡ length mesh.now }
    requires written { AllByRecursion (IsWrittenCopy mesh.now) radio.now.flying }
    ensures text { Puts (O.held out.old) (O.held out.new)
        (flight_text mesh.now (map (copy_in mesh.now) radio.now.flying)) result }
    ensures cause { HasCause (O.faults out.old) (O.faults out.new) result }
{
    let mut start = 0;
    let mut hint = 0;
    while let Some(flying) = radio.next_from(start, &mut hint) {
        put_flying_view(mesh, &flying, out)?;
        start = flying.id + 1;
    }
    Ok(())
}

// Writes the line that shows the copies in flight, as it was read, and the copies.
fn show_flight<S: Steps, O: Sink>(
    at: &mut Point<S>,
    bytes: &[u8],
    out: &mut O,
) -> Result<(), PutFault>
    requires started { is_some at.old.world ≡ true }
    requires echo { IsLineOf at.old.mesh ShowsFlight bytes.now }
    ensures text { Puts (O.held out.old) (O.held out.new)
        (line (words_of at.old.mesh ShowsFlight)
        ++ flight_text at.old.mesh (world_of at.old).flying) result }
    ensures same { at.new ≡ at.old }
    ensures cause { HasCause (O.faults out.old) (O.faults out.new) result }
{
    let Some(state) = at.state.world() else {
        unreachable!();
    };
    let world = state.world();
    put_echo(bytes, out)?;
    put_copies(world.mesh(), world.radio(), out)
}

// Writes a line that shows something, as it was read, and what it shows.
#[tactic(auto, unfolding(mesh_text::specs::Text::outcome_of_line))]
fn show<S: Steps, O: Sink>(
    at: &mut Point<S>,
    bytes: &[u8],
    what: Shown,
    out: &mut O,
) -> Result<(), PutFault>
    requires started { is_some at.old.world ≡ true }
    requires within { IsInRange at.old.mesh (line_of_shown what) }
    requires echo { IsLineOf at.old.mesh (line_of_shown what) bytes.now }
    ensures text { Puts (O.held out.old) (O.held out.new)
        (text_in (outcome_of_line at.old (line_of_shown what))) result }
    ensures same { at.new ≡ at.old }
    ensures cause { HasCause (O.faults out.old) (O.faults out.new) result }
{
    match what {
        Shown::Node { node } => show_node(at, bytes, node, out),
        Shown::Route { node, dest } => show_route(at, bytes, node, dest, out),
        Shown::Flight => show_flight(at, bytes, out),
    }
}

/// Does a line that shows something: if `say`, writes it as it was read, and what it shows.
pub fn do_show<S: Steps, O: Sink>(
    at: &mut Point<S>,
    bytes: &[u8],
    what: Shown,
    say: bool,
    out: &mut O,
) -> Result<(), Stop<'static>>
    requires started { is_some at.old.world ≡ true }
    requires within { IsInRange at.old.mesh (line_of_shown what) }
    requires echo { say ≡ true → IsLineOf at.old.mesh (line_of_shown what) bytes.now }
    ensures comes { IsUncountedRun say at.old (outcome_of_line at.old (line_of_shown what))
        at.new (O.held out.old) (O.held out.new) result }
    ensures same { at.new ≡ at.old }
    ensures cause { HasStopCause (O.faults out.old) (O.faults out.new) result }
{
    if !say {
        return Ok(());
    }
    match show(at, bytes, what, out) {
        Ok(()) => Ok(()),
        Err(_) => Err(Stop::WriteFault),
    }
}
