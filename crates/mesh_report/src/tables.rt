//! The lines of a node's state, of a route's end, and of the copies in flight.
ghost use Rattle.std.specs.Prelude.{◌<◌, ◌++◌, ◌∷◌, length, codes};
ghost use Rattle.std.specs.Fmt.{decimal};
ghost use Rattle.mesh_base.specs.Views.{flying_seen};
ghost use Rattle.aodv_model.specs.Soundness.{AreBelow};
ghost use Rattle.mesh_grammar.specs.Written.{label_number};
ghost use Rattle.mesh_text.specs.Lines.{name_of};
ghost use Rattle.mesh_text.specs.Tables.{number_line, asked_line, known_text, flag_text, entry_text, req_text, waits_line, stuck_line};
ghost use Rattle.mesh_io.specs.Cause.{HasCause};
ghost use Rattle.mesh_io.specs.Puts.{Puts};
ghost use Rattle.mesh_report.specs.Packets.{flying_line};

use crate::text::{
    put_byte, put_decimal, put_hex_word, put_labelled, put_one, put_set_word, put_text,
};
use aodv_model::{Entry, Flag, Known};
use mesh_base::{Flying, FlyingView, Mesh};
use mesh_io::{PutFault, Sink, put_all};

// ---- a node

/// Writes a label, and a number of a node or the hops of a route after it.
#[inline(never)]
pub fn put_number<O: Sink>(label: &str, n: u64, out: &mut O) -> Result<(), PutFault>
    ensures text { Puts (O.held out.old) (O.held out.new) (number_line label.now n) result }
    ensures cause { HasCause (O.faults out.old) (O.faults out.new) result }
{
    put_text(b"  ", out)?;
    put_all(out, label.as_bytes())?;
    put_labelled(b" ", n, out)?;
    put_byte(b'\n', out)
}

/// Writes a request that a node has seen: its originator and its id.
#[inline(never)]
pub fn put_asked<O: Sink>(mesh: &Mesh, o: usize, id: u32, out: &mut O) -> Result<(), PutFault>
    requires originator { o < length mesh.now }
    ensures text { Puts (O.held out.old) (O.held out.new) (asked_line mesh.now o id) result }
    ensures cause { HasCause (O.faults out.old) (O.faults out.new) result }
{
    put_one(b"  asked ", mesh, o, out)?;
    put_labelled(b" ", u64::from(id), out)?;
    put_byte(b'\n', out)
}

fn put_known<O: Sink>(known: Known, out: &mut O) -> Result<(), PutFault>
    ensures text { Puts (O.held out.old) (O.held out.new) (known_text known) result }
    ensures cause { HasCause (O.faults out.old) (O.faults out.new) result }
{
    match known {
        Known::Kno => put_text(b" kno ", out),
        Known::Unk => put_text(b" unk ", out),
    }
}

fn put_flag<O: Sink>(flag: Flag, out: &mut O) -> Result<(), PutFault>
    ensures text { Puts (O.held out.old) (O.held out.new) (flag_text flag) result }
    ensures cause { HasCause (O.faults out.old) (O.faults out.new) result }
{
    match flag {
        Flag::Val => put_text(b"val ", out),
        Flag::Inv => put_text(b"inv ", out),
    }
}

// Writes an entry's destination, its number and its status, and whether its route is valid.
fn put_status<O: Sink>(mesh: &Mesh, d: usize, e: &Entry, out: &mut O) -> Result<(), PutFault>
    requires { d < length mesh.now }
    ensures text { Puts (O.held out.old) (O.held out.new)
        (codes "  entry " ++ name_of mesh.now d ++ 32 ∷ decimal e.now.dsn ++ known_text e.now.dsk
        ++ flag_text e.now.flag) result }
    ensures cause { HasCause (O.faults out.old) (O.faults out.new) result }
{
    put_one(b"  entry ", mesh, d, out)?;
    put_labelled(b" ", u64::from(e.dsn), out)?;
    put_known(e.dsk, out)?;
    put_flag(e.flag, out)
}

// Writes the same, and then the hops and the next hop.
fn put_route<O: Sink>(mesh: &Mesh, d: usize, e: &Entry, out: &mut O) -> Result<(), PutFault>
    requires dest { d < length mesh.now }
    requires next { e.now.next < length mesh.now }
    ensures text { Puts (O.held out.old) (O.held out.new)
        (codes "  entry " ++ name_of mesh.now d ++ 32 ∷ decimal e.now.dsn ++ known_text e.now.dsk
        ++ flag_text e.now.flag ++ decimal e.now.hops ++ 32 ∷ name_of mesh.now e.now.next)
        result }
    ensures cause { HasCause (O.faults out.old) (O.faults out.new) result }
{
    put_status(mesh, d, e, out)?;
    put_decimal(u64::from(e.hops), out)?;
    put_one(b" ", mesh, e.next, out)
}

/// Writes the entry for node d.
#[inline(never)]
pub fn put_entry<O: Sink>(mesh: &Mesh, d: usize, e: &Entry, out: &mut O) -> Result<(), PutFault>
    requires dest { d < length mesh.now }
    requires next { e.now.next < length mesh.now }
    requires precursors { AreBelow (length mesh.now) e.now.pre }
    ensures text { Puts (O.held out.old) (O.held out.new) (entry_text mesh.now d e.now) result }
    ensures cause { HasCause (O.faults out.old) (O.faults out.new) result }
{
    put_route(mesh, d, e, out)?;
    put_set_word(mesh, &e.pre, out)?;
    put_byte(b'\n', out)
}

fn put_req<O: Sink>(needs_request: bool, out: &mut O) -> Result<(), PutFault>
    ensures text { Puts (O.held out.old) (O.held out.new) (req_text needs_request) result }
    ensures cause { HasCause (O.faults out.old) (O.faults out.new) result }
{
    if needs_request {
        put_text(b" req ", out)
    } else {
        put_text(b" noreq ", out)
    }
}

/// Writes how many data wait for node d, and whether a request for it is still to be made.
#[inline(never)]
pub fn put_waits<O: Sink>(
    mesh: &Mesh,
    d: usize,
    needs_request: bool,
    count: usize,
    out: &mut O,
) -> Result<(), PutFault>
    requires dest { d < length mesh.now }
    ensures text { Puts (O.held out.old) (O.held out.new)
        (waits_line mesh.now d needs_request count) result }
    ensures cause { HasCause (O.faults out.old) (O.faults out.new) result }
{
    put_one(b"  waits ", mesh, d, out)?;
    put_req(needs_request, out)?;
    put_decimal(count as u64, out)?;
    put_byte(b'\n', out)
}

// ---- a route

/// Writes the node at which the valid routes for a destination end, and how many hops lead there.
#[inline(never)]
pub fn put_stuck<O: Sink>(mesh: &Mesh, at: usize, hops: usize, out: &mut O) -> Result<(), PutFault>
    requires node { at < length mesh.now }
    ensures text { Puts (O.held out.old) (O.held out.new) (stuck_line mesh.now at hops) result }
    ensures cause { HasCause (O.faults out.old) (O.faults out.new) result }
{
    put_one(b"  stuck ", mesh, at, out)?;
    put_labelled(b" ", hops as u64, out)?;
    put_byte(b'\n', out)
}

// ---- the radio

// Writes a copy's id, sender and receiver.
fn put_ends<O: Sink>(mesh: &Mesh, f: &FlyingView<'_>, out: &mut O) -> Result<(), PutFault>
    requires from { f.now.from < length mesh.now }
    requires to { f.now.to < length mesh.now }
    ensures text { Puts (O.held out.old) (O.held out.new)
        (label_number (codes "  copy ") f.now.id ++ 32 ∷ name_of mesh.now f.now.from
        ++ 32 ∷ name_of mesh.now f.now.to) result }
    ensures cause { HasCause (O.faults out.old) (O.faults out.new) result }
{
    put_labelled(b"  copy ", f.id, out)?;
    put_one(b" ", mesh, f.from, out)?;
    put_one(b" ", mesh, f.to, out)
}

/// Writes a copy in flight that is only looked at: its id, sender and receiver, and its packet as
/// it is.
#[inline(never)]
pub fn put_flying_view<O: Sink>(
    mesh: &Mesh,
    f: &FlyingView<'_>,
    out: &mut O,
) -> Result<(), PutFault>
    requires from { f.now.from < length mesh.now }
    requires to { f.now.to < length mesh.now }
    ensures text { Puts (O.held out.old) (O.held out.new)
        (flying_line mesh.now (flying_seen f.now)) result }
    ensures cause { HasCause (O.faults out.old) (O.faults out.new) result }
{
    put_ends(mesh, f, out)?;
    put_hex_word(f.bytes, out)?;
    put_byte(b'\n', out)
}

/// Writes a copy in flight: its id, sender and receiver, and its packet as it is.
#[inline]
pub fn put_flying<O: Sink>(mesh: &Mesh, f: &Flying, out: &mut O) -> Result<(), PutFault>
    requires from { f.now.from < length mesh.now }
    requires to { f.now.to < length mesh.now }
    ensures text { Puts (O.held out.old) (O.held out.new) (flying_line mesh.now f.now) result }
    ensures cause { HasCause (O.faults out.old) (O.faults out.new) result }
{
    let view = FlyingView {
        id: f.id,
        from: f.from,
        to: f.to,
        bytes: f.bytes.as_slice(),
    };
    put_flying_view(mesh, &view, out)
}
