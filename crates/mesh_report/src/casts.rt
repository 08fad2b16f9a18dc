//! What was cast, and its copies.
ghost use Rattle.std.specs.Prelude.{◌+◌, ◌<◌, ◌^◌, ◌++◌, ◌∷◌, length, codes, IfSome};
ghost use Rattle.aodv_model.specs.Soundness.{AreBelow};
ghost use Rattle.mesh_model.specs.Worlds.{members_below};
ghost use Rattle.mesh_grammar.specs.Written.{line};
ghost use Rattle.mesh_text.specs.Lines.{name_of, hex};
ghost use Rattle.mesh_text.specs.Effects.{broken_text, set_text};
ghost use Rattle.mesh_io.specs.Cause.{HasCause};
ghost use Rattle.mesh_io.specs.Puts.{Puts};
ghost use Rattle.mesh_report.specs.Nodes.{IsCastOfMesh, IsEffectOfMesh};
ghost use Rattle.mesh_report.specs.Packets.{cast_line, copy_line, copy_lines, air_lines, sent_lines};

use crate::text::{put_byte, put_hex, put_hex_word, put_labelled, put_one, put_set, put_text};
use mesh_base::{Air, Cast, Effect, MOST_NODES, Mesh, NodeSet, Packet};
use mesh_io::{PutFault, Sink};

fn put_broken<O: Sink>(mesh: &Mesh, broken: Option<usize>, out: &mut O) -> Result<(), PutFault>
    requires { IfSome broken (λ y. y < length mesh.now) }
    ensures text { Puts (O.held out.old) (O.held out.new) (broken_text mesh.now broken) result }
    ensures cause { HasCause (O.faults out.old) (O.faults out.new) result }
{
    match broken {
        Some(y) => put_broken_link(mesh, y, out),
        None => Ok(()),
    }
}

fn put_broken_link<O: Sink>(mesh: &Mesh, y: usize, out: &mut O) -> Result<(), PutFault>
    requires { y < length mesh.now }
    ensures text { Puts (O.held out.old) (O.held out.new)
        (line (codes "  broken " ++ name_of mesh.now y)) result }
    ensures cause { HasCause (O.faults out.old) (O.faults out.new) result }
{
    put_one(b"  broken ", mesh, y, out)?;
    put_byte(b'\n', out)
}

fn put_unicast<O: Sink>(mesh: &Mesh, y: usize, packet: &[u8], out: &mut O) -> Result<(), PutFault>
    requires { y < length mesh.now }
    ensures text { Puts (O.held out.old) (O.held out.new)
        (line (codes "  sent one " ++ name_of mesh.now y ++ 32 ∷ hex packet.now)) result }
    ensures cause { HasCause (O.faults out.old) (O.faults out.new) result }
{
    put_one(b"  sent one ", mesh, y, out)?;
    put_hex_word(packet, out)?;
    put_byte(b'\n', out)
}

fn put_groupcast<O: Sink>(
    mesh: &Mesh,
    set: &NodeSet,
    packet: &[u8],
    out: &mut O,
) -> Result<(), PutFault>
    requires { AreBelow (length mesh.now) set.now }
    ensures text { Puts (O.held out.old) (O.held out.new)
        (line (codes "  sent many " ++ set_text mesh.now set.now ++ 32 ∷ hex packet.now)) result }
    ensures cause { HasCause (O.faults out.old) (O.faults out.new) result }
{
    put_text(b"  sent many ", out)?;
    put_set(mesh, set, out)?;
    put_hex_word(packet, out)?;
    put_byte(b'\n', out)
}

fn put_broadcast<O: Sink>(packet: &[u8], out: &mut O) -> Result<(), PutFault>
    ensures text { Puts (O.held out.old) (O.held out.new)
        (line (codes "  sent all " ++ hex packet.now)) result }
    ensures cause { HasCause (O.faults out.old) (O.faults out.new) result }
{
    put_text(b"  sent all ", out)?;
    put_hex(packet, out)?;
    put_byte(b'\n', out)
}

// Writes to whom a packet was cast, and the packet.
fn put_cast<O: Sink>(mesh: &Mesh, cast: &Cast, packet: &Packet, out: &mut O) -> Result<(), PutFault>
    requires { IsCastOfMesh mesh.now cast.now }
    ensures text { Puts (O.held out.old) (O.held out.new)
        (cast_line mesh.now cast.now packet.now.items) result }
    ensures cause { HasCause (O.faults out.old) (O.faults out.new) result }
{
    match cast {
        Cast::Nothing => Ok(()),
        Cast::One(y) => put_unicast(mesh, *y, packet.as_slice(), out),
        Cast::Many(set) => put_groupcast(mesh, set, packet.as_slice(), out),
        Cast::All => put_broadcast(packet.as_slice(), out),
    }
}

/// Writes a new copy: its id and its receiver.
pub(crate) fn put_copy<O: Sink>(
    mesh: &Mesh,
    id: u64,
    to: usize,
    out: &mut O,
) -> Result<(), PutFault>
    requires { to < length mesh.now }
    ensures text { Puts (O.held out.old) (O.held out.new) (copy_line mesh.now id to) result }
    ensures cause { HasCause (O.faults out.old) (O.faults out.new) result }
{
    put_labelled(b"  copy ", id, out)?;
    put_one(b" ", mesh, to, out)?;
    put_byte(b'\n', out)
}

// Writes the copies of a cast.
fn put_copies<O: Sink>(mesh: &Mesh, air: &Air, out: &mut O) -> Result<(), PutFault>
    requires receivers { AreBelow (length mesh.now) air.now.to }
    requires few { air.now.first + MOST_NODES < 2 ^ 64 }
    ensures text { Puts (O.held out.old) (O.held out.new)
        (copy_lines mesh.now air.now.first (members_below (length mesh.now) air.now.to)) result }
    ensures cause { HasCause (O.faults out.old) (O.faults out.new) result }
{
    // There are at most 200 nodes, so at most 200 copies.
    let _nodes = mesh.len();
    let mut id = air.first;
    let mut start = 0;
    while let Some(to) = air.to.next_from(start) {
        put_copy(mesh, id, to, out)?;
        id += 1;
        start = to + 1;
    }
    Ok(())
}

// Writes the copies of a cast, if there was one.
fn put_air<O: Sink>(mesh: &Mesh, cast: &Cast, air: &Air, out: &mut O) -> Result<(), PutFault>
    requires receivers { AreBelow (length mesh.now) air.now.to }
    requires few { air.now.first + MOST_NODES < 2 ^ 64 }
    ensures text { Puts (O.held out.old) (O.held out.new)
        (air_lines mesh.now cast.now air.now) result }
    ensures cause { HasCause (O.faults out.old) (O.faults out.new) result }
{
    match cast {
        Cast::Nothing => Ok(()),
        Cast::One(_) => put_copies(mesh, air, out),
        Cast::Many(_) => put_copies(mesh, air, out),
        Cast::All => put_copies(mesh, air, out),
    }
}

/// Writes a failed unicast, and what was cast.
pub(crate) fn put_sending<O: Sink>(
    mesh: &Mesh,
    effect: &Effect,
    packet: &Packet,
    out: &mut O,
) -> Result<(), PutFault>
    requires broken { IfSome effect.now.broken (λ y. y < length mesh.now) }
    requires cast { IsCastOfMesh mesh.now effect.now.cast }
    ensures text { Puts (O.held out.old) (O.held out.new)
        (broken_text mesh.now effect.now.broken
        ++ cast_line mesh.now effect.now.cast packet.now.items) result }
    ensures cause { HasCause (O.faults out.old) (O.faults out.new) result }
{
    put_broken(mesh, effect.broken, out)?;
    put_cast(mesh, &effect.cast, packet, out)
}

/// Writes a failed unicast, what was cast, and its copies.
pub(crate) fn put_sent<O: Sink>(
    mesh: &Mesh,
    effect: &Effect,
    air: &Air,
    packet: &Packet,
    out: &mut O,
) -> Result<(), PutFault>
    requires { IsEffectOfMesh mesh.now effect.now air.now }
    ensures text { Puts (O.held out.old) (O.held out.new)
        (sent_lines mesh.now effect.now air.now packet.now.items) result }
    ensures cause { HasCause (O.faults out.old) (O.faults out.new) result }
{
    put_sending(mesh, effect, packet, out)?;
    put_air(mesh, &effect.cast, air, out)
}
