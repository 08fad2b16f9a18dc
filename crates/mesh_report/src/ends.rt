//! The last line of a run, and the line that follows chosen events.
ghost use Rattle.std.specs.Prelude.{◌≤◌, ◌++◌, length, codes};
ghost use Rattle.mesh_model.specs.InMesh.{IsEvent};
ghost use Rattle.mesh_meaning.specs.Events.{event_of};
ghost use Rattle.mesh_grammar.specs.Faults.{at_bytes, fault_text, why_text, bad_line};
ghost use Rattle.mesh_grammar.specs.Written.{line, label_number};
ghost use Rattle.mesh_text.specs.Lines.{copied_words, event_words, field_text, full_line, summary_text};
ghost use Rattle.mesh_text.specs.Auto.{auto_end};
ghost use Rattle.mesh_io.specs.Cause.{HasCause};
ghost use Rattle.mesh_io.specs.Puts.{Puts};
ghost use Rattle.mesh_report.specs.Sums.{sums_in};

use crate::line::put_words;
use crate::text::{put_byte, put_labelled, put_text};
use mesh_base::{Event, Full, Mesh};
use mesh_grammar::{BadWhy, LineFault, Span};
use mesh_io::{PutFault, Sink, put_all};

// ---- the whole input was read

/// What was counted in a run, and where the data are at its end.
#[derive(Clone, Copy, PartialEq, Eq)]
pub struct Summary {
    /// Events that were done, idle ones too.
    pub events: u64,
    /// Events that were idle.
    pub idle: u64,
    /// Data that were given.
    pub given: u64,
    /// Data that were delivered.
    pub delivered: u64,
    /// Data in stores.
    pub waiting: u64,
    /// Data in queues.
    pub queued: u64,
    /// Data in flight.
    pub flying: u64,
    /// Data that were dropped.
    pub lost: u64,
    /// Data packets that were doubled in flight.
    pub copied: u64,
}

// Writes the counts of events, and of the data that were given and delivered.
fn put_counts<O: Sink>(s: &Summary, out: &mut O) -> Result<(), PutFault>
    ensures text { Puts (O.held out.old) (O.held out.new)
        (label_number (codes "done events ") s.now.events
        ++ label_number (codes " idle ") s.now.idle
        ++ label_number (codes " given ") s.now.given
        ++ label_number (codes " delivered ") s.now.delivered) result }
    ensures cause { HasCause (O.faults out.old) (O.faults out.new) result }
{
    put_labelled(b"done events ", s.events, out)?;
    put_labelled(b" idle ", s.idle, out)?;
    put_labelled(b" given ", s.given, out)?;
    put_labelled(b" delivered ", s.delivered, out)
}

// Writes these counts, and then where the data are.
fn put_places<O: Sink>(s: &Summary, out: &mut O) -> Result<(), PutFault>
    ensures text { Puts (O.held out.old) (O.held out.new)
        (label_number (codes "done events ") s.now.events
        ++ label_number (codes " idle ") s.now.idle
        ++ label_number (codes " given ") s.now.given
        ++ label_number (codes " delivered ") s.now.delivered
        ++ label_number (codes " waiting ") s.now.waiting
        ++ label_number (codes " queued ") s.now.queued
        ++ label_number (codes " flying ") s.now.flying) result }
    ensures cause { HasCause (O.faults out.old) (O.faults out.new) result }
{
    put_counts(s, out)?;
    put_labelled(b" waiting ", s.waiting, out)?;
    put_labelled(b" queued ", s.queued, out)?;
    put_labelled(b" flying ", s.flying, out)
}

// Writes how many data packets were doubled, if any were.
fn put_copied<O: Sink>(copied: u64, out: &mut O) -> Result<(), PutFault>
    ensures text { Puts (O.held out.old) (O.held out.new) (copied_words copied) result }
    ensures cause { HasCause (O.faults out.old) (O.faults out.new) result }
{
    if copied == 0 {
        return Ok(());
    }
    put_labelled(b" copied ", copied, out)
}

// Writes the data that were dropped, the data packets that were doubled, and LF.
fn put_losses<O: Sink>(s: &Summary, out: &mut O) -> Result<(), PutFault>
    ensures text { Puts (O.held out.old) (O.held out.new)
        (line (label_number (codes " lost ") s.now.lost ++ copied_words s.now.copied)) result }
    ensures cause { HasCause (O.faults out.old) (O.faults out.new) result }
{
    put_labelled(b" lost ", s.lost, out)?;
    put_copied(s.copied, out)?;
    put_byte(b'\n', out)
}

/// Writes the last line of a run that read its whole input.
#[inline(never)]
pub fn put_summary<O: Sink>(s: &Summary, out: &mut O) -> Result<(), PutFault>
    ensures text { Puts (O.held out.old) (O.held out.new)
        (summary_text (sums_in s.now) s.now.waiting s.now.queued s.now.flying) result }
    ensures cause { HasCause (O.faults out.old) (O.faults out.new) result }
{
    put_places(s, out)?;
    put_losses(s, out)
}

// ---- a line is refused

fn put_span<O: Sink>(span: Span, out: &mut O) -> Result<(), PutFault>
    ensures text { Puts (O.held out.old) (O.held out.new) (at_bytes span) result }
    ensures cause { HasCause (O.faults out.old) (O.faults out.new) result }
{
    put_labelled(b" at bytes ", span.from as u64, out)?;
    put_labelled(b" to ", span.to as u64, out)
}

// Writes a fault, and the bytes of the line that it is about.
fn put_at<O: Sink, const WIDTH: usize>(
    fault: &[u8; WIDTH],
    span: Span,
    out: &mut O,
) -> Result<(), PutFault>
    requires { WIDTH ≤ 16 }
    ensures text { Puts (O.held out.old) (O.held out.new) (fault.now ++ at_bytes span) result }
    ensures cause { HasCause (O.faults out.old) (O.faults out.new) result }
{
    put_text(fault, out)?;
    put_span(span, out)
}

fn put_fault<O: Sink>(fault: &LineFault, out: &mut O) -> Result<(), PutFault>
    ensures text { Puts (O.held out.old) (O.held out.new) (fault_text fault.now) result }
    ensures cause { HasCause (O.faults out.old) (O.faults out.new) result }
{
    match *fault {
        LineFault::Word(span) => put_at(b"no command", span, out),
        LineFault::Count => put_all(out, b"wrong number of words"),
        LineFault::BadAddress(span) => put_at(b"no address", span, out),
        LineFault::BadNumber(span) => put_at(b"no number", span, out),
        LineFault::BadText(span) => put_at(b"no text", span, out),
        LineFault::Late => put_all(out, b"node after the first event"),
        LineFault::Early => put_text(b"no node yet", out),
        LineFault::TwiceNode(span) => put_at(b"node named twice", span, out),
        LineFault::TooManyNodes => put_all(out, b"more than 200 nodes"),
        LineFault::Unknown(span) => put_at(b"unknown node", span, out),
        LineFault::Same => put_text(b"link to itself", out),
    }
}

#[tactic(auto, unfolding(mesh_grammar::specs::Faults::why_text))]
fn put_why<O: Sink>(why: &BadWhy, out: &mut O) -> Result<(), PutFault>
    ensures text { Puts (O.held out.old) (O.held out.new) (why_text why.now) result }
    ensures cause { HasCause (O.faults out.old) (O.faults out.new) result }
{
    match why {
        BadWhy::Fault(fault) => put_fault(fault, out),
        BadWhy::TooLong => put_all(out, b"line longer than 600 bytes"),
        BadWhy::TooMuch => put_all(out, b"input longer than 16777216 bytes"),
    }
}

/// Writes the last line of a run that a line has ended. Lines are counted from 1.
#[inline(never)]
pub fn put_bad<O: Sink>(line: u64, why: &BadWhy, out: &mut O) -> Result<(), PutFault>
    ensures text { Puts (O.held out.old) (O.held out.new) (bad_line line why.now) result }
    ensures cause { HasCause (O.faults out.old) (O.faults out.new) result }
{
    put_labelled(b"bad line ", line, out)?;
    put_text(b": ", out)?;
    put_why(why, out)?;
    put_byte(b'\n', out)
}

// ---- a counter is full

fn put_field<O: Sink>(field: &Full, out: &mut O) -> Result<(), PutFault>
    ensures text { Puts (O.held out.old) (O.held out.new) (field_text field.now) result }
    ensures cause { HasCause (O.faults out.old) (O.faults out.new) result }
{
    match field {
        Full::Hops => put_text(b"hops", out),
        Full::Number => put_text(b"number", out),
        Full::Id => put_text(b"id", out),
    }
}

// Writes the place of an event that a full counter has refused, and the event.
fn put_refused<O: Sink>(mesh: &Mesh, line: u64, e: &Event<'_>, out: &mut O) -> Result<(), PutFault>
    requires { IsEvent (length mesh.now) (event_of e.now) }
    ensures text { Puts (O.held out.old) (O.held out.new)
        (label_number (codes "full line ") line ++ codes ": "
        ++ event_words mesh.now (event_of e.now)) result }
    ensures cause { HasCause (O.faults out.old) (O.faults out.new) result }
{
    put_labelled(b"full line ", line, out)?;
    put_text(b": ", out)?;
    put_words(mesh, e, out)
}

/// Writes the last line of a run that an event of this line has ended, because a counter is full.
/// Lines are counted from 1.
#[inline(never)]
pub fn put_full<O: Sink>(
    mesh: &Mesh,
    line: u64,
    e: &Event<'_>,
    field: &Full,
    out: &mut O,
) -> Result<(), PutFault>
    requires event { IsEvent (length mesh.now) (event_of e.now) }
    ensures text { Puts (O.held out.old) (O.held out.new)
        (full_line mesh.now line (event_of e.now) field.now) result }
    ensures cause { HasCause (O.faults out.old) (O.faults out.new) result }
{
    put_refused(mesh, line, e, out)?;
    put_text(b": ", out)?;
    put_field(field, out)?;
    put_byte(b'\n', out)
}

// ---- chosen events

/// Writes how many events an `auto` line did.
#[inline(never)]
pub fn put_auto_end<O: Sink>(did: u32, out: &mut O) -> Result<(), PutFault>
    ensures text { Puts (O.held out.old) (O.held out.new) (auto_end did) result }
    ensures cause { HasCause (O.faults out.old) (O.faults out.new) result }
{
    put_labelled(b"auto did ", u64::from(did), out)?;
    put_byte(b'\n', out)
}
