//! The line that a check writes.
ghost use Rattle.mesh_io.specs.Cause.{HasCause};
ghost use Rattle.mesh_io.specs.Puts.{Puts};
ghost use Rattle.mesh_check.specs.Verdicts as verdicts;

use mesh_base::{Addr, LineBuf, push_number, push_text, write_dotted};
use mesh_io::{PutFault, Sink, put_all};
use mesh_tables::{FailingEdge, PrintedTables};

/// Writes that a line is refused.
#[tactic(auto, unfolding(crate::specs::Verdicts::bad_line))]
pub fn put_bad<O: Sink>(line: u64, out: &mut O) -> Result<(), PutFault>
    ensures text { Puts (O.held out.old) (O.held out.new) (verdicts.bad_line line) result }
    ensures cause { HasCause (O.faults out.old) (O.faults out.new) result }
{
    let mut buf = LineBuf::new();
    push_text(&mut buf, b"bad line ");
    push_number(&mut buf, line);
    buf.push(b'\n');
    put_all(out, buf.as_slice())
}

/// Writes that the tables are sound.
#[tactic(auto, unfolding(crate::specs::Verdicts::yes_line))]
pub fn put_yes<O: Sink>(tables: &PrintedTables, out: &mut O) -> Result<(), PutFault>
    ensures text { Puts (O.held out.old) (O.held out.new)
        (verdicts.yes_line tables.now.closed) result }
    ensures cause { HasCause (O.faults out.old) (O.faults out.new) result }
{
    let mut buf = LineBuf::new();
    push_text(&mut buf, b"yes nodes ");
    push_number(&mut buf, tables.nodes() as u64);
    push_text(&mut buf, b" edges ");
    push_number(&mut buf, tables.edges());
    buf.push(b'\n');
    put_all(out, buf.as_slice())
}

/// Writes the edge that fails.
#[tactic(auto, unfolding(crate::specs::Verdicts::no_line))]
pub fn put_no<O: Sink>(edge: &FailingEdge, out: &mut O) -> Result<(), PutFault>
    ensures text { Puts (O.held out.old) (O.held out.new) (verdicts.no_line edge.now) result }
    ensures cause { HasCause (O.faults out.old) (O.faults out.new) result }
{
    let mut buf = LineBuf::new();
    push_text(&mut buf, b"no ");
    write_dotted(Addr(edge.dest), &mut buf);
    buf.push(b' ');
    write_dotted(Addr(edge.node), &mut buf);
    buf.push(b' ');
    write_dotted(Addr(edge.next), &mut buf);
    buf.push(b'\n');
    put_all(out, buf.as_slice())
}
