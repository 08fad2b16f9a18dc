//! Whether a line is allowed at its place in a schedule.
ghost use Rattle.std.specs.Prelude.{◌≡◌, ◌<◌, IfOk, IfErr, Some, None, Ok};
ghost use Rattle.mesh_base.specs.Meshes.{index_of};
ghost use Rattle.mesh_meaning.specs.Events.{event_of};
ghost use Rattle.mesh_text.specs.Ranges.{IsEcho};
ghost use Rattle.mesh_text.specs.Schedule as schedule;
ghost use Rattle.mesh_script.specs.Arguments.{spanned_of, all_spanned_of, indices_of, indices_in};
ghost use Rattle.mesh_script.specs.Shapes.{said_of};
ghost use Rattle.mesh_script.specs.Seen.{seen_line, accepted_of, short_count, IsAllowed, HasNodes};

use crate::fast::fast_line;
use crate::forms::Arguments;
use crate::line::Line;
use crate::shape::{Shape, shape_of};
use crate::words::SpannedAddr;
use mesh_base::{Event, MOST_NODES, Mesh};
use mesh_grammar::{Command, LineFault};

// A line that is neither blank nor a `node` line is refused while the mesh has no node.
pub(crate) fn after_nodes(mesh: &Mesh) -> Result<(), LineFault>
    ensures { HasNodes mesh.now result }
{
    if mesh.is_empty() {
        return Err(LineFault::Early);
    }
    Ok(())
}

fn index(mesh: &Mesh, node: SpannedAddr) -> Result<usize, LineFault>
    ensures value { IfOk result (λ i. index_of mesh.now (spanned_of node).address ≡ Some i) }
    ensures none { IfErr result (λ f. index_of mesh.now (spanned_of node).address ≡ None) }
    ensures fault { IfErr result (λ f. f ≡ LineFault.Unknown node.span) }
{
    mesh.index_of(node.addr)
        .ok_or(LineFault::Unknown(node.span))
}

/// Arguments with the index of its node for each address. The fault is the leftmost address that no
/// node has.
pub fn indexed<'a>(
    mesh: &Mesh,
    arguments: &Arguments<'a, SpannedAddr>,
) -> Result<Arguments<'a, usize>, LineFault>
    ensures { indices_in result ≡ schedule.with_nodes mesh.now (all_spanned_of arguments.now) }
{
    match *arguments {
        Arguments::NoArgument => Ok(Arguments::NoArgument),
        Arguments::OneAddress(a) => {
            let x = index(mesh, a)?;
            Ok(Arguments::OneAddress(x))
        }
        Arguments::TwoAddresses(a, b) => {
            let x = index(mesh, a)?;
            let y = index(mesh, b)?;
            Ok(Arguments::TwoAddresses(x, y))
        }
        Arguments::OneNumber(n) => Ok(Arguments::OneNumber(n)),
        Arguments::NumberedAddress(a, first) => {
            let x = index(mesh, a)?;
            Ok(Arguments::NumberedAddress(x, first))
        }
        Arguments::AddressesAndText(a, b, text) => {
            let x = index(mesh, a)?;
            let y = index(mesh, b)?;
            Ok(Arguments::AddressesAndText(x, y, text))
        }
        Arguments::AddressAndNumber(a, n) => {
            let x = index(mesh, a)?;
            Ok(Arguments::AddressAndNumber(x, n))
        }
        Arguments::AddressAndText(a, text) => {
            let x = index(mesh, a)?;
            Ok(Arguments::AddressAndText(x, text))
        }
    }
}

// An event of two nodes, which must not be the same.
fn of_pair<'a>(a: usize, b: usize, event: Event<'a>) -> Result<Line<'a>, LineFault>
    ensures { seen_line result ≡ schedule.of_pair a b (event_of event.entry) }
{
    if a == b {
        return Err(LineFault::Same);
    }
    Ok(Line::Step(event))
}

// A line that chooses events. A count of more than 32 bits is a fault.
fn auto(count: u64) -> Result<Line<'static>, LineFault>
    ensures { seen_line result ≡ short_count (Ok (schedule.Chooses count)) }
{
    if count > u64::from(u32::MAX) {
        return Err(LineFault::Count);
    }
    Ok(Line::Auto {
        count: count as u32,
    })
}

/// The line of a command and its arguments, which give each node by its index. Arguments of another
/// form than the command's are a fault, and so is a count of events past 32 bits.
#[inline(always)]
fn make_line<'a>(command: Command, arguments: Arguments<'a, usize>) -> Result<Line<'a>, LineFault>
    ensures { seen_line result
        ≡ short_count (schedule.made_line command (indices_of arguments.entry)) }
{
    match (command, arguments) {
        (Command::Link, Arguments::TwoAddresses(a, b)) => of_pair(a, b, Event::Link { a, b }),
        (Command::Cut, Arguments::TwoAddresses(a, b)) => of_pair(a, b, Event::Cut { a, b }),
        (Command::Data, Arguments::AddressesAndText(node, dest, body)) => {
            Ok(Line::Step(Event::Give { node, dest, body }))
        }
        (Command::Turn, Arguments::OneAddress(node)) => Ok(Line::Step(Event::Turn { node })),
        (Command::Send, Arguments::TwoAddresses(node, dest)) => {
            Ok(Line::Step(Event::Send { node, dest }))
        }
        (Command::Ask, Arguments::TwoAddresses(node, dest)) => {
            Ok(Line::Step(Event::Ask { node, dest }))
        }
        (Command::Deliver, Arguments::OneNumber(id)) => Ok(Line::Step(Event::Deliver { id })),
        (Command::Lose, Arguments::OneNumber(id)) => Ok(Line::Step(Event::Lose { id })),
        (Command::Copy, Arguments::OneNumber(id)) => Ok(Line::Step(Event::Double { id })),
        (Command::Auto, Arguments::OneNumber(count)) => auto(count),
        (Command::Show, Arguments::OneAddress(node)) => Ok(Line::Show { node }),
        (Command::Route, Arguments::TwoAddresses(node, dest)) => Ok(Line::Route { node, dest }),
        (Command::Flight, Arguments::NoArgument) => Ok(Line::Flight),
        _ => Err(LineFault::Count),
    }
}

// One more node: it must not be in the mesh yet, and the run must not have started.
fn new_node(
    mesh: &Mesh,
    started: bool,
    node: SpannedAddr,
    first: u32,
) -> Result<Line<'static>, LineFault>
    ensures { seen_line result ≡ schedule.new_node mesh.now started (spanned_of node) first }
{
    if started {
        return Err(LineFault::Late);
    }
    if let Some(_there) = mesh.index_of(node.addr) {
        return Err(LineFault::TwiceNode(node.span));
    }
    if mesh.len() == MOST_NODES {
        return Err(LineFault::TooManyNodes);
    }
    Ok(Line::Node {
        addr: node.addr,
        first,
    })
}

// What a line says in this mesh. The shape is borrowed: it is too large to be moved without need.
fn line_at<'a>(
    said: &Option<Shape<'a, Command>>,
    mesh: &Mesh,
    started: bool,
) -> Result<Line<'a>, LineFault>
    ensures { seen_line result
        ≡ short_count (schedule.accepted_shape mesh.now started (said_of said.now)) }
{
    let Some(shape) = said else {
        return Ok(Line::Blank);
    };
    if let Arguments::NumberedAddress(node, first) = shape.arguments {
        return new_node(mesh, started, node, first);
    }
    after_nodes(mesh)?;
    let arguments = indexed(mesh, &shape.arguments)?;
    make_line(shape.command, arguments)
}

/// Reads a line in the mesh so far: the line, or its first fault. `started` says whether an earlier
/// line was neither blank nor a `node` line. An allowed line that isn't blank is the text in which
/// it is written back, except that it may give a new node without its number, which is 1 then.
pub fn parse_line<'a>(bytes: &'a [u8], mesh: &Mesh, started: bool) -> Result<Line<'a>, LineFault>
    ensures value { seen_line result ≡ schedule.line_of mesh.now started bytes.now }
    ensures allowed { IfOk result (IsAllowed mesh.now started) }
    ensures echo { IfOk result (λ l. IsEcho mesh.now bytes.now (accepted_of l)) }
{
    // There are at most 200 nodes.
    let _size = mesh.len();
    if let Some(line) = fast_line(bytes, mesh) {
        return Ok(line);
    }
    match &shape_of::<Command>(mesh, bytes) {
        Ok(said) => line_at(said, mesh, started),
        Err(fault) => Err(*fault),
    }
}
