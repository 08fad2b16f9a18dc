//! The text in which a line is written back: each node by its address, and the node itself with its
//! first sequence number.
ghost use Rattle.std.specs.Prelude.{◌≡◌, ◌<◌, ◌≤◌, ◌+◌, ◌++◌, Bool, length, Ok};
ghost use Rattle.mesh_base.specs.Meshes.{addr_at};
ghost use Rattle.mesh_grammar.specs.Forms.{OneAddress};
ghost use Rattle.mesh_grammar.specs.Written.{command_text};
ghost use Rattle.mesh_script.specs.NodeLines as lines;
ghost use Rattle.mesh_script.specs.NodeSeen.{accepted_of, IsPrintable};

use crate::forms::Arguments;
use crate::node_line::NodeLine;
use crate::peers::Peers;
use crate::print::{ADDRESS_ARGUMENT, LONGEST_WRITTEN, push_written};
use mesh_base::{LINE_CAPACITY, LineBuf, Mesh};

// Appends a word and the address of a node.
fn push_of_node(out: &mut LineBuf, word: &[u8], mesh: &Mesh, node: usize)
    requires node { node < length mesh.now }
    requires room { length out.old.items + length word.now + ADDRESS_ARGUMENT ≤ LINE_CAPACITY }
    ensures text { out.new.items
        ≡ out.old.items ++ command_text word.now (OneAddress (addr_at mesh.now node)) }
    ensures length { length out.new.items
        ≤ length out.old.items + length word.now + ADDRESS_ARGUMENT }
{
    push_written(out, word, &Arguments::OneAddress(mesh.at(node)));
}

/// Appends a line in canonical form, without LF. Nothing is appended for a blank line.
#[tactic(auto, using(crate::proofs::Allowed::append_none), unfolding(crate::specs::NodeLines::words_of))]
pub fn push_node_line(out: &mut LineBuf, peers: &Peers, line: &NodeLine<'_>)
    requires printable { IsPrintable peers.now line.now }
    requires room { length out.old.items + LONGEST_WRITTEN ≤ LINE_CAPACITY }
    ensures text { out.new.items
        ≡ out.old.items ++ lines.words_of peers.now.mesh (accepted_of line.now) }
    ensures length { length out.new.items ≤ length out.old.items + LONGEST_WRITTEN }
{
    let mesh = peers.mesh();
    match *line {
        NodeLine::Blank => {}
        NodeLine::Own { addr, first } => {
            push_written(out, b"self", &Arguments::NumberedAddress(addr, first));
        }
        NodeLine::Peer { addr, port } => {
            push_written(
                out,
                b"peer",
                &Arguments::AddressAndNumber(addr, u64::from(port)),
            );
        }
        NodeLine::Up { node } => push_of_node(out, b"up", mesh, node),
        NodeLine::Down { node } => push_of_node(out, b"down", mesh, node),
        NodeLine::Give { dest, body } => {
            push_written(
                out,
                b"data",
                &Arguments::AddressAndText(mesh.at(dest), body),
            );
        }
        NodeLine::Poll { count } => {
            push_written(out, b"poll", &Arguments::OneNumber(u64::from(count)));
        }
        NodeLine::Turn { count } => {
            push_written(out, b"turn", &Arguments::OneNumber(u64::from(count)));
        }
        NodeLine::Send { dest } => push_of_node(out, b"send", mesh, dest),
        NodeLine::Ask { dest } => push_of_node(out, b"ask", mesh, dest),
        NodeLine::Show => push_written(out, b"show", &Arguments::NoArgument),
    }
}

/// Replaces what `out` holds by the line in canonical form, without LF. A blank line leaves `out`
/// empty.
#[tactic(auto, using(crate::proofs::NodeAllowed::reread))]
pub fn print_node_line(line: &NodeLine<'_>, peers: &Peers, out: &mut LineBuf)
    requires { IsPrintable peers.now line.now }
    ensures text { out.new.items ≡ lines.words_of peers.now.mesh (accepted_of line.now) }
    ensures short { length out.new.items ≤ LONGEST_WRITTEN }
    ensures reread { (started : Bool) → lines.IsInTime started (accepted_of line.now)
        → lines.line_of peers.now started out.new.items ≡ Ok (accepted_of line.now) }
{
    // The mesh has distinct addresses, each of 32 bits.
    let _size = peers.mesh().len();
    out.clear();
    push_node_line(out, peers, line);
}
