//! Writing a line of a schedule, in canonical form or as it was read.
ghost use Rattle.std.specs.Prelude.{◌<◌, ◌++◌, ◌∷◌, length, codes};
ghost use Rattle.std.specs.Fmt.{decimal};
ghost use Rattle.mesh_base.specs.Addresses.{dotted_decimal};
ghost use Rattle.mesh_grammar.specs.Written.{line as ended};
ghost use Rattle.mesh_model.specs.InMesh.{IsEvent};
ghost use Rattle.mesh_meaning.specs.Events.{event_of};
ghost use Rattle.mesh_text.specs.Lines.{words_of, event_words, of_two};
ghost use Rattle.mesh_script.specs.Seen.{accepted_of, IsPrintable};
ghost use Rattle.mesh_io.specs.Cause.{HasCause};
ghost use Rattle.mesh_io.specs.Puts.{Puts};

use crate::text::{put_address, put_byte, put_decimal, put_labelled, put_one, put_text, put_two};
use mesh_base::{Addr, Event, Mesh};
use mesh_io::{PutFault, Sink, put_all};
use mesh_script::Line;

// Writes a space and a text.
fn put_word<O: Sink>(text: &[u8], out: &mut O) -> Result<(), PutFault>
    ensures text { Puts (O.held out.old) (O.held out.new) (32 ∷ text.now) result }
    ensures cause { HasCause (O.faults out.old) (O.faults out.new) result }
{
    put_byte(b' ', out)?;
    put_all(out, text)
}

fn put_give<O: Sink>(
    mesh: &Mesh,
    node: usize,
    dest: usize,
    body: &[u8],
    out: &mut O,
) -> Result<(), PutFault>
    requires node { node < length mesh.now }
    requires dest { dest < length mesh.now }
    ensures text { Puts (O.held out.old) (O.held out.new)
        (of_two (codes "data ") mesh.now node dest ++ 32 ∷ body.now) result }
    ensures cause { HasCause (O.faults out.old) (O.faults out.new) result }
{
    put_two(b"data ", mesh, node, dest, out)?;
    put_word(body, out)
}

/// Writes an event as a line of a schedule, without LF.
#[inline(always)]
#[tactic(auto, unfolding(mesh_text::specs::Lines::event_words, mesh_grammar::specs::Written::command_text))]
pub(crate) fn put_words<O: Sink>(
    mesh: &Mesh,
    event: &Event<'_>,
    out: &mut O,
) -> Result<(), PutFault>
    requires { IsEvent (length mesh.now) (event_of event.now) }
    ensures text { Puts (O.held out.old) (O.held out.new)
        (event_words mesh.now (event_of event.now)) result }
    ensures cause { HasCause (O.faults out.old) (O.faults out.new) result }
{
    match *event {
        Event::Give { node, dest, body } => put_give(mesh, node, dest, body, out),
        Event::Turn { node } => put_one(b"turn ", mesh, node, out),
        Event::Send { node, dest } => put_two(b"send ", mesh, node, dest, out),
        Event::Ask { node, dest } => put_two(b"ask ", mesh, node, dest, out),
        Event::Link { a, b } => put_two(b"link ", mesh, a, b, out),
        Event::Cut { a, b } => put_two(b"cut ", mesh, a, b, out),
        Event::Deliver { id } => put_labelled(b"deliver ", id, out),
        Event::Double { id } => put_labelled(b"copy ", id, out),
        Event::Lose { id } => put_labelled(b"lose ", id, out),
    }
}

// Writes the line of a new node, without LF.
fn put_node<O: Sink>(addr: Addr, first: u32, out: &mut O) -> Result<(), PutFault>
    ensures text { Puts (O.held out.old) (O.held out.new)
        (codes "node " ++ dotted_decimal addr.0 ++ codes " sn " ++ decimal first) result }
    ensures cause { HasCause (O.faults out.old) (O.faults out.new) result }
{
    put_text(b"node ", out)?;
    put_address(addr, out)?;
    put_text(b" sn ", out)?;
    put_decimal(u64::from(first), out)
}

#[tactic(auto, unfolding(mesh_text::specs::Lines::words_of, mesh_text::specs::Lines::event_words, mesh_grammar::specs::Written::command_text))]
fn put_line_words<O: Sink>(mesh: &Mesh, line: &Line<'_>, out: &mut O) -> Result<(), PutFault>
    requires { IsPrintable mesh.now line.now }
    ensures text { Puts (O.held out.old) (O.held out.new)
        (words_of mesh.now (accepted_of line.now)) result }
    ensures cause { HasCause (O.faults out.old) (O.faults out.new) result }
{
    match *line {
        Line::Blank => Ok(()),
        Line::Node { addr, first } => put_node(addr, first, out),
        Line::Step(event) => put_words(mesh, &event, out),
        Line::Auto { count } => put_labelled(b"auto ", u64::from(count), out),
        Line::Show { node } => put_one(b"show ", mesh, node, out),
        Line::Route { node, dest } => put_two(b"route ", mesh, node, dest, out),
        Line::Flight => put_text(b"flight", out),
    }
}

/// Writes an allowed line in canonical form, and its LF. For a blank line that is the LF alone.
#[inline(never)]
pub fn put_line<O: Sink>(mesh: &Mesh, line: &Line<'_>, out: &mut O) -> Result<(), PutFault>
    requires printable { IsPrintable mesh.now line.now }
    ensures text { Puts (O.held out.old) (O.held out.new)
        (ended (words_of mesh.now (accepted_of line.now))) result }
    ensures cause { HasCause (O.faults out.old) (O.faults out.new) result }
{
    put_line_words(mesh, line, out)?;
    put_byte(b'\n', out)
}

/// Writes a line as it was read, and its LF.
#[inline]
pub fn put_echo<O: Sink>(line: &[u8], out: &mut O) -> Result<(), PutFault>
    ensures text { Puts (O.held out.old) (O.held out.new) (ended line.now) result }
    ensures cause { HasCause (O.faults out.old) (O.faults out.new) result }
{
    put_all(out, line)?;
    put_byte(b'\n', out)
}
