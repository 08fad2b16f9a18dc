//! Whether a line is allowed at its point of the script.
ghost use Rattle.std.specs.Prelude.{◌≡◌, ◌≤◌, length, IfOk};
ghost use Rattle.std.specs.Fmt.{decimal};
ghost use Rattle.mesh_grammar.specs.Forms.{AreOfForm};
ghost use Rattle.mesh_script.specs.Arguments.{spanned_of, indices_of};
ghost use Rattle.mesh_script.specs.NodeLines as lines;
ghost use Rattle.mesh_script.specs.Shapes.{said_of};
ghost use Rattle.mesh_script.specs.NodeSeen.{accepted_of, seen_line, form_of, IsSaidIn, HasSelf, IsAllowed};

use crate::forms::Arguments;
use crate::node_command::NodeCommand as Command;
use crate::node_line::NodeLine;
use crate::parse::indexed;
use crate::peers::Peers;
use crate::shape::{Shape, shape_of};
use crate::words::SpannedAddr;
use mesh_base::MOST_NODES;
use mesh_grammar::{LineFault, Span};

// Refuses a line, other than `self` and `peer`, that comes before the node itself is named.
fn after_self(peers: &Peers) -> Result<(), LineFault>
    ensures { HasSelf peers.now.me result }
{
    match peers.me() {
        Some(_me) => Ok(()),
        None => Err(LineFault::Early),
    }
}

// A line about a peer: the node that it names mustn't be the node itself.
fn of_other<'a>(peers: &Peers, node: usize, line: NodeLine<'a>) -> Result<NodeLine<'a>, LineFault>
    ensures { seen_line result ≡ lines.of_other peers.now.me node (accepted_of line.entry) }
{
    match peers.me() {
        Some(me) if node == me => Err(LineFault::Same),
        _ => Ok(line),
    }
}

// The line of a command with these arguments, with each node by its index.
fn make_line<'a>(
    peers: &Peers,
    command: Command,
    arguments: Arguments<'a, usize>,
) -> Result<NodeLine<'a>, LineFault>
    requires form { AreOfForm (form_of command) (indices_of arguments) }
    ensures { seen_line result ≡ lines.made_line peers.now.me command (indices_of arguments.entry) }
{
    match (command, arguments) {
        (Command::Up, Arguments::OneAddress(node)) => of_other(peers, node, NodeLine::Up { node }),
        (Command::Down, Arguments::OneAddress(node)) => {
            of_other(peers, node, NodeLine::Down { node })
        }
        (Command::Data, Arguments::AddressAndText(dest, body)) => Ok(NodeLine::Give { dest, body }),
        (Command::Poll, Arguments::OneNumber(count)) => Ok(NodeLine::Poll {
            count: count as u32,
        }),
        (Command::Turn, Arguments::OneNumber(count)) => Ok(NodeLine::Turn {
            count: count as u32,
        }),
        (Command::Send, Arguments::OneAddress(dest)) => Ok(NodeLine::Send { dest }),
        (Command::Ask, Arguments::OneAddress(dest)) => Ok(NodeLine::Ask { dest }),
        (Command::Show, Arguments::NoArgument) => Ok(NodeLine::Show),
        _ => Err(LineFault::Count),
    }
}

// A line that names the node itself: once only, and before the run has started.
fn new_self(
    peers: &Peers,
    started: bool,
    node: SpannedAddr,
    first: u32,
) -> Result<NodeLine<'static>, LineFault>
    ensures { seen_line result ≡ lines.new_self peers.now started (spanned_of node) first }
{
    if started {
        return Err(LineFault::Late);
    }
    if peers.me().is_some() || peers.mesh().index_of(node.addr).is_some() {
        return Err(LineFault::TwiceNode(node.span));
    }
    if peers.mesh().len() == MOST_NODES {
        return Err(LineFault::TooManyNodes);
    }
    Ok(NodeLine::Own {
        addr: node.addr,
        first,
    })
}

// How many decimal digits a number has.
#[tactic(auto, using(std::proofs::lemmas::Fmt::decimal_digit, std::proofs::lemmas::Fmt::decimal_step, std::proofs::lemmas::List::length_push))]
fn digits(n: u64) -> usize
    ensures value { result ≡ length (decimal n) }
    ensures few { result ≤ 20 }
{
    if n < 10 { 1 } else { digits(n / 10) + 1 }
}

// Which bytes of a line of `size` bytes are the port that ends it.
fn last_span(size: usize, port: u16) -> Span
    requires { length (decimal port) ≤ size }
    ensures { result ≡ lines.last_span size port }
{
    Span {
        from: size - digits(u64::from(port)),
        to: size,
    }
}

// A line of `size` bytes that names a peer, with an address and a port that no other node has:
// before the run has started only.
fn new_peer(
    peers: &Peers,
    started: bool,
    size: usize,
    node: SpannedAddr,
    port: u16,
) -> Result<NodeLine<'static>, LineFault>
    requires { length (decimal port) ≤ size }
    ensures { seen_line result ≡ lines.new_peer peers.now started size (spanned_of node) port }
{
    if started {
        return Err(LineFault::Late);
    }
    if peers.mesh().index_of(node.addr).is_some() {
        return Err(LineFault::TwiceNode(node.span));
    }
    if peers.at_port(port).is_some() {
        return Err(LineFault::TwiceNode(last_span(size, port)));
    }
    if peers.mesh().len() == MOST_NODES {
        return Err(LineFault::TooManyNodes);
    }
    Ok(NodeLine::Peer {
        addr: node.addr,
        port,
    })
}

// What a line of `size` bytes says, with these peers. The shape is borrowed, since it is too large
// to be moved without need.
fn line_at<'a>(
    said: &Option<Shape<'a, Command>>,
    peers: &Peers,
    started: bool,
    size: usize,
) -> Result<NodeLine<'a>, LineFault>
    requires said { IsSaidIn size said.now }
    ensures { seen_line result
        ≡ lines.accepted_shape peers.now started size (said_of said.now) }
{
    let Some(shape) = said else {
        return Ok(NodeLine::Blank);
    };
    if let Arguments::NumberedAddress(node, first) = shape.arguments {
        return new_self(peers, started, node, first);
    }
    if let Arguments::AddressAndNumber(node, port) = shape.arguments {
        return new_peer(peers, started, size, node, port as u16);
    }
    after_self(peers)?;
    let arguments = indexed(peers.mesh(), &shape.arguments)?;
    make_line(peers, shape.command, arguments)
}

/// What a line comes to with the peers so far: its first fault, or what it says. `started` says
/// whether an earlier line was neither blank nor a `self` or `peer` line.
pub fn parse_node_line<'a>(
    bytes: &'a [u8],
    peers: &Peers,
    started: bool,
) -> Result<NodeLine<'a>, LineFault>
    ensures value { seen_line result ≡ lines.line_of peers.now started bytes.now }
    ensures allowed { IfOk result (IsAllowed peers.now started) }
{
    // There are at most 200 nodes.
    let _nodes = peers.mesh().len();
    match &shape_of::<Command>(peers.mesh(), bytes) {
        Ok(said) => line_at(said, peers, started, bytes.len()),
        Err(fault) => Err(*fault),
    }
}
