//! What a turn took, and what became of it.
ghost use Rattle.std.specs.Prelude.{◌<◌, ◌≤◌, ◌++◌, ◌∷◌, [], length, codes, IfSome, if◌then◌else◌};
ghost use Rattle.std.specs.List.{flat_map};
ghost use Rattle.mesh_base.specs.Addresses.{dotted_decimal};
ghost use Rattle.mesh_grammar.specs.Written.{line};
ghost use Rattle.mesh_text.specs.Lines.{name_of};
ghost use Rattle.mesh_text.specs.Effects.{shown_byte, datum_text};
ghost use Rattle.mesh_io.specs.Cause.{HasCause};
ghost use Rattle.mesh_io.specs.Puts.{Puts};
ghost use Rattle.mesh_report.specs.Nodes.{IsTookOfMesh};
ghost use Rattle.mesh_report.specs.Packets.{datum_line, kind_word, took_line, delivery_line, drop_line, fate_lines, turn_lines, taken_lines};

use crate::text::{
    put_address, put_address_word, put_byte, put_name, put_one, put_shown_word, put_text, put_two,
};
use aodv_wire::{Message, read};
use mesh_base::{Addr, Effect, Kind, Mesh, Took};
use mesh_io::{PutFault, Sink};

// ---- data

// Writes a label, and the addresses of a datum's originator and destination.
fn put_addresses<O: Sink, const WIDTH: usize>(
    label: &[u8; WIDTH],
    origin: Addr,
    dest: Addr,
    out: &mut O,
) -> Result<(), PutFault>
    requires { WIDTH ≤ 16 }
    ensures text { Puts (O.held out.old) (O.held out.new)
        (label.now ++ dotted_decimal origin.0 ++ 32 ∷ dotted_decimal dest.0) result }
    ensures cause { HasCause (O.faults out.old) (O.faults out.new) result }
{
    put_text(label, out)?;
    put_address(origin, out)?;
    put_address_word(dest, out)
}

// Writes a label and a datum of one address for another, as a line.
fn put_datum<O: Sink, const WIDTH: usize>(
    label: &[u8; WIDTH],
    origin: Addr,
    dest: Addr,
    body: &[u8],
    out: &mut O,
) -> Result<(), PutFault>
    requires { WIDTH ≤ 16 }
    ensures text { Puts (O.held out.old) (O.held out.new)
        (line (label.now ++ dotted_decimal origin.0 ++ 32 ∷ dotted_decimal dest.0
        ++ 32 ∷ flat_map shown_byte body.now)) result }
    ensures cause { HasCause (O.faults out.old) (O.faults out.new) result }
{
    put_addresses(label, origin, dest, out)?;
    put_shown_word(body, out)?;
    put_byte(b'\n', out)
}

/// Writes a label and the datum of a packet, as a line, if the packet can be read and has one.
pub(crate) fn put_datum_in<O: Sink, const WIDTH: usize>(
    label: &[u8; WIDTH],
    packet: &[u8],
    out: &mut O,
) -> Result<(), PutFault>
    requires { WIDTH ≤ 16 }
    ensures text { Puts (O.held out.old) (O.held out.new) (datum_line label.now packet.now) result }
    ensures cause { HasCause (O.faults out.old) (O.faults out.new) result }
{
    match read(packet) {
        Ok(Message::Parcel(datum)) => {
            put_datum(label, datum.oip(), datum.dip(), datum.body(), out)
        }
        Ok(Message::Rreq(_)) => Ok(()),
        Ok(Message::Rrep(_)) => Ok(()),
        Ok(Message::Rerr(_)) => Ok(()),
        Err(_) => Ok(()),
    }
}

// ---- what a turn took

fn put_kind<O: Sink>(kind: Kind, out: &mut O) -> Result<(), PutFault>
    ensures text { Puts (O.held out.old) (O.held out.new)
        (codes "  took " ++ kind_word kind) result }
    ensures cause { HasCause (O.faults out.old) (O.faults out.new) result }
{
    match kind {
        Kind::Data => put_text(b"  took data ", out),
        Kind::Rreq => put_text(b"  took rreq ", out),
        Kind::Rrep => put_text(b"  took rrep ", out),
        Kind::Rerr => put_text(b"  took rerr ", out),
    }
}

// Writes that the node took a packet of this kind from a neighbour.
fn put_packet_taken<O: Sink>(
    mesh: &Mesh,
    from: usize,
    kind: Kind,
    out: &mut O,
) -> Result<(), PutFault>
    requires { from < length mesh.now }
    ensures text { Puts (O.held out.old) (O.held out.new)
        (line (codes "  took " ++ kind_word kind ++ name_of mesh.now from)) result }
    ensures cause { HasCause (O.faults out.old) (O.faults out.new) result }
{
    put_kind(kind, out)?;
    put_name(mesh, from, out)?;
    put_byte(b'\n', out)
}

// Writes that a datum of this node's users was taken, by the node that it is for or waits for.
fn put_new_taken<O: Sink>(mesh: &Mesh, node: usize, out: &mut O) -> Result<(), PutFault>
    requires { node < length mesh.now }
    ensures text { Puts (O.held out.old) (O.held out.new)
        (line (codes "  took new " ++ name_of mesh.now node)) result }
    ensures cause { HasCause (O.faults out.old) (O.faults out.new) result }
{
    put_one(b"  took new ", mesh, node, out)?;
    put_byte(b'\n', out)
}

// Writes what node `me` took.
fn put_took<O: Sink>(mesh: &Mesh, me: usize, took: &Took, out: &mut O) -> Result<(), PutFault>
    requires me { me < length mesh.now }
    requires took { IsTookOfMesh mesh.now took.now }
    ensures text { Puts (O.held out.old) (O.held out.new) (took_line mesh.now me took.now) result }
    ensures cause { HasCause (O.faults out.old) (O.faults out.new) result }
{
    match took {
        Took::Own { .. } => put_new_taken(mesh, me, out),
        Took::Stored { dest } => put_new_taken(mesh, *dest, out),
        Took::Heard { from, kind, .. } => put_packet_taken(mesh, *from, *kind, out),
    }
}

// Writes the datum that node `me` took for itself and has delivered.
fn put_own<O: Sink>(mesh: &Mesh, me: usize, body: &[u8], out: &mut O) -> Result<(), PutFault>
    requires { me < length mesh.now }
    ensures text { Puts (O.held out.old) (O.held out.new)
        (datum_text (codes "  delivered ") mesh.now me me body.now) result }
    ensures cause { HasCause (O.faults out.old) (O.faults out.new) result }
{
    put_two(b"  delivered ", mesh, me, me, out)?;
    put_shown_word(body, out)?;
    put_byte(b'\n', out)
}

// Writes the datum that node `me` took and has delivered.
fn put_delivery<O: Sink>(mesh: &Mesh, me: usize, took: &Took, out: &mut O) -> Result<(), PutFault>
    requires { me < length mesh.now }
    ensures text { Puts (O.held out.old) (O.held out.new)
        (delivery_line mesh.now me took.now) result }
    ensures cause { HasCause (O.faults out.old) (O.faults out.new) result }
{
    match took {
        Took::Own { body } => put_own(mesh, me, body.as_slice(), out),
        Took::Stored { .. } => Ok(()),
        Took::Heard { bytes, .. } => put_datum_in(b"  delivered ", bytes.as_slice(), out),
    }
}

// Writes the datum that was taken and is dropped.
fn put_drop<O: Sink>(took: &Took, out: &mut O) -> Result<(), PutFault>
    ensures text { Puts (O.held out.old) (O.held out.new) (drop_line took.now) result }
    ensures cause { HasCause (O.faults out.old) (O.faults out.new) result }
{
    match took {
        Took::Own { .. } => Ok(()),
        Took::Stored { .. } => Ok(()),
        Took::Heard { bytes, .. } => put_datum_in(b"  dropped ", bytes.as_slice(), out),
    }
}

// Writes the datum that node `me` took, if it was delivered.
fn put_if_delivered<O: Sink>(
    mesh: &Mesh,
    me: usize,
    took: &Took,
    effect: &Effect,
    out: &mut O,
) -> Result<(), PutFault>
    requires { me < length mesh.now }
    ensures text { Puts (O.held out.old) (O.held out.new)
        (if effect.now.deliver then delivery_line mesh.now me took.now else []) result }
    ensures cause { HasCause (O.faults out.old) (O.faults out.new) result }
{
    if effect.deliver {
        put_delivery(mesh, me, took, out)
    } else {
        Ok(())
    }
}

// Writes the datum that was taken, if it was dropped.
fn put_if_dropped<O: Sink>(took: &Took, effect: &Effect, out: &mut O) -> Result<(), PutFault>
    ensures text { Puts (O.held out.old) (O.held out.new)
        (if effect.now.lost then drop_line took.now else []) result }
    ensures cause { HasCause (O.faults out.old) (O.faults out.new) result }
{
    if effect.lost {
        put_drop(took, out)
    } else {
        Ok(())
    }
}

// Writes the datum that node `me` took, if it was delivered or dropped, whatever was cast.
fn put_fate<O: Sink>(
    mesh: &Mesh,
    me: usize,
    took: &Took,
    effect: &Effect,
    out: &mut O,
) -> Result<(), PutFault>
    requires { me < length mesh.now }
    ensures text { Puts (O.held out.old) (O.held out.new)
        (fate_lines mesh.now me took.now effect.now) result }
    ensures cause { HasCause (O.faults out.old) (O.faults out.new) result }
{
    put_if_delivered(mesh, me, took, effect, out)?;
    put_if_dropped(took, effect, out)
}

/// Writes what node `me` took, and what became of it.
pub(crate) fn put_turn<O: Sink>(
    mesh: &Mesh,
    me: usize,
    took: &Took,
    effect: &Effect,
    out: &mut O,
) -> Result<(), PutFault>
    requires me { me < length mesh.now }
    requires took { IsTookOfMesh mesh.now took.now }
    ensures text { Puts (O.held out.old) (O.held out.new)
        (turn_lines mesh.now me took.now effect.now) result }
    ensures cause { HasCause (O.faults out.old) (O.faults out.new) result }
{
    put_took(mesh, me, took, out)?;
    put_fate(mesh, me, took, effect, out)
}

/// Does what `put_turn` does, if there was a turn.
pub(crate) fn put_taken<O: Sink>(
    mesh: &Mesh,
    me: usize,
    took: Option<&Took>,
    effect: &Effect,
    out: &mut O,
) -> Result<(), PutFault>
    requires me { me < length mesh.now }
    requires took { IfSome took (λ t. IsTookOfMesh mesh.now t.now) }
    ensures text { Puts (O.held out.old) (O.held out.new)
        (taken_lines mesh.now me took.entry effect.now) result }
    ensures cause { HasCause (O.faults out.old) (O.faults out.new) result }
{
    match took {
        Some(took) => put_turn(mesh, me, took, effect, out),
        None => Ok(()),
    }
}
