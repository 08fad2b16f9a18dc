//! What an event and a node's step did.
ghost use Rattle.std.specs.Prelude.{◌≡◌, ◌<◌, ◌++◌, ◌∷◌, length, codes, IfSome};
ghost use Rattle.mesh_model.specs.Worlds.{World};
ghost use Rattle.mesh_meaning.specs.Events.{event_of, node_of};
ghost use Rattle.mesh_meaning.specs.Answers.{outcome_in, IsDoneInMesh};
ghost use Rattle.mesh_grammar.specs.Written.{line};
ghost use Rattle.mesh_text.specs.Lines.{name_of, words_of};
ghost use Rattle.mesh_text.specs.Effects.{outcome_lines};
ghost use Rattle.mesh_script.specs.Seen.{accepted_of, IsPrintable};
ghost use Rattle.mesh_io.specs.Cause.{HasCause};
ghost use Rattle.mesh_io.specs.Puts.{Puts};
ghost use Rattle.mesh_report.specs.Nodes.{IsTookOfMesh, IsCastOfMesh, IsEffectOfMesh, IsDoneOfMesh};
ghost use Rattle.mesh_report.specs.Packets.{datum_line, turn_lines, sent_lines, done_lines, step_lines};

use crate::casts::{put_copy, put_sending, put_sent};
use crate::event::node_of;
use crate::line::{put_echo, put_words};
use crate::text::{put_byte, put_text, put_two};
use crate::turns::{put_datum_in, put_taken, put_turn};
use mesh_base::{Air, Done, Effect, Event, Flying, Mesh, Packet, Took};
use mesh_io::{PutFault, Sink};
use mesh_script::Line;

/// Writes what a node's step did, except for its copies: what node `me` took from its inbox, if the
/// step was a turn, and what became of that; then a failed unicast, and what was cast. A packet is
/// written as it is. One that was taken may be anybody's: if it can't be read, no datum of it is
/// written.
#[inline(never)]
pub fn put_effect<O: Sink>(
    mesh: &Mesh,
    me: usize,
    took: Option<&Took>,
    effect: &Effect,
    packet: &Packet,
    out: &mut O,
) -> Result<(), PutFault>
    requires me { me < length mesh.now }
    requires took { IfSome took (λ t. IsTookOfMesh mesh.now t.now) }
    requires broken { IfSome effect.now.broken (λ y. y < length mesh.now) }
    requires cast { IsCastOfMesh mesh.now effect.now.cast }
    ensures text { Puts (O.held out.old) (O.held out.new)
        (step_lines mesh.now me took.entry effect.now packet.now.items) result }
    ensures cause { HasCause (O.faults out.old) (O.faults out.new) result }
{
    put_taken(mesh, me, took, effect, out)?;
    put_sending(mesh, effect, packet, out)
}

// ---- copies

fn put_heard<O: Sink>(mesh: &Mesh, from: usize, to: usize, out: &mut O) -> Result<(), PutFault>
    requires from { from < length mesh.now }
    requires to { to < length mesh.now }
    ensures text { Puts (O.held out.old) (O.held out.new)
        (line (codes "  heard " ++ name_of mesh.now from ++ 32 ∷ name_of mesh.now to)) result }
    ensures cause { HasCause (O.faults out.old) (O.faults out.new) result }
{
    put_two(b"  heard ", mesh, from, to, out)?;
    put_byte(b'\n', out)
}

// Writes a lost copy, and the datum that is dropped with it.
fn put_lost<O: Sink>(mesh: &Mesh, flying: &Flying, out: &mut O) -> Result<(), PutFault>
    requires from { flying.now.from < length mesh.now }
    requires to { flying.now.to < length mesh.now }
    ensures text { Puts (O.held out.old) (O.held out.new)
        (line (codes "  lost " ++ name_of mesh.now flying.now.from
        ++ 32 ∷ name_of mesh.now flying.now.to)
        ++ datum_line (codes "  dropped ") flying.now.bytes) result }
    ensures cause { HasCause (O.faults out.old) (O.faults out.new) result }
{
    put_two(b"  lost ", mesh, flying.from, flying.to, out)?;
    put_byte(b'\n', out)?;
    put_datum_in(b"  dropped ", flying.bytes.as_slice(), out)
}

// ---- events

// Writes what node `me` took and what became of it, and then what it cast.
fn put_turn_whole<O: Sink>(
    mesh: &Mesh,
    me: usize,
    took: &Took,
    effect: &Effect,
    air: &Air,
    packet: &Packet,
    out: &mut O,
) -> Result<(), PutFault>
    requires me { me < length mesh.now }
    requires took { IsTookOfMesh mesh.now took.now }
    requires effect { IsEffectOfMesh mesh.now effect.now air.now }
    ensures text { Puts (O.held out.old) (O.held out.new)
        (turn_lines mesh.now me took.now effect.now
        ++ sent_lines mesh.now effect.now air.now packet.now.items) result }
    ensures cause { HasCause (O.faults out.old) (O.faults out.new) result }
{
    put_turn(mesh, me, took, effect, out)?;
    put_sent(mesh, effect, air, packet, out)
}

/// Writes what an event did, one line for each effect. `packet` is the one that was cast, if any
/// was. A packet is written as it is. One that was taken or lost may be anybody's: if it can't be
/// read, no datum of it is written. Nothing is written about a datum that joined an inbox or a link
/// that changed.
#[inline(never)]
pub fn put_done<O: Sink>(
    mesh: &Mesh,
    e: &Event<'_>,
    done: &Done,
    packet: &Packet,
    out: &mut O,
) -> Result<(), PutFault>
    requires place { node_of (event_of e.now) < length mesh.now }
    requires of_mesh { IsDoneOfMesh mesh.now done.now }
    ensures text { Puts (O.held out.old) (O.held out.new)
        (done_lines mesh.now (node_of (event_of e.now)) done.now packet.now.items) result }
    ensures cause { HasCause (O.faults out.old) (O.faults out.new) result }
{
    match done {
        Done::Idle => put_text(b"  idle\n", out),
        Done::Changed => Ok(()),
        Done::Taken { took, effect, air } => {
            put_turn_whole(mesh, node_of(e), took, effect, air, packet, out)
        }
        Done::Sent { effect, air } => put_sent(mesh, effect, air, packet, out),
        Done::Heard { from, to } => put_heard(mesh, *from, *to, out),
        Done::Lost { flying } => put_lost(mesh, flying, out),
        Done::Doubled { id, to, .. } => put_copy(mesh, *id, *to, out),
    }
}

/// Writes an event in canonical form, and below it what the event did.
#[inline(never)]
pub fn put_event<O: Sink>(
    mesh: &Mesh,
    e: &Event<'_>,
    done: &Done,
    packet: &Packet,
    out: &mut O,
) -> Result<(), PutFault>
    requires printable { IsPrintable mesh.now (Line.Step e.now) }
    requires in_mesh { IsDoneInMesh mesh.now done.now packet.now.items }
    ensures text { (w : World) → Puts (O.held out.old) (O.held out.new)
        (outcome_lines mesh.now (event_of e.now)
        (outcome_in mesh.now (node_of (event_of e.now)) w done.now packet.now.items)) result }
    ensures cause { HasCause (O.faults out.old) (O.faults out.new) result }
{
    // The mesh has distinct addresses.
    let _nodes = mesh.len();
    put_words(mesh, e, out)?;
    put_byte(b'\n', out)?;
    put_done(mesh, e, done, packet, out)
}

/// Writes an event, given by the bytes of its canonical line, and below it what the event did.
#[inline(never)]
pub fn put_echoed_event<O: Sink>(
    bytes: &[u8],
    mesh: &Mesh,
    e: &Event<'_>,
    done: &Done,
    packet: &Packet,
    out: &mut O,
) -> Result<(), PutFault>
    requires echo { bytes.now ≡ words_of mesh.now (accepted_of (Line.Step e.now)) }
    requires printable { IsPrintable mesh.now (Line.Step e.now) }
    requires in_mesh { IsDoneInMesh mesh.now done.now packet.now.items }
    ensures text { (w : World) → Puts (O.held out.old) (O.held out.new)
        (outcome_lines mesh.now (event_of e.now)
        (outcome_in mesh.now (node_of (event_of e.now)) w done.now packet.now.items)) result }
    ensures cause { HasCause (O.faults out.old) (O.faults out.new) result }
{
    // The mesh has distinct addresses.
    let _nodes = mesh.len();
    put_echo(bytes, out)?;
    put_done(mesh, e, done, packet, out)
}
