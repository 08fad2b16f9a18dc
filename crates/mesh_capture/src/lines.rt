//! What a capture writes.
ghost use Rattle.std.specs.Prelude.{◌≤◌, ◌<◌, length};
ghost use Rattle.mesh_base.specs.declared.limits.TheConstants.{LONGEST_PACKET};
ghost use Rattle.mesh_io.specs.Cause.{HasCause};
ghost use Rattle.mesh_io.specs.Puts.{Puts};
ghost use Rattle.mesh_capture.specs.Frames.{file_header, record_of};
ghost use Rattle.mesh_capture.specs.Kept.{most_lines};
ghost use Rattle.mesh_capture.specs.Outputs.{bad_line};

use crate::frame::{Frame, FrameBuf, put_file_header};
use mesh_base::{LineBuf, push_number, push_text};
use mesh_io::{PutFault, Sink, put_all};

/// Writes the header of the file, which is put together in `buf`.
pub fn put_header<O: Sink>(buf: &mut FrameBuf, out: &mut O) -> Result<(), PutFault>
    ensures text { Puts (O.held out.old) (O.held out.new) file_header result }
    ensures cause { HasCause (O.faults out.old) (O.faults out.new) result }
{
    buf.clear();
    put_file_header(buf);
    put_all(out, buf.as_slice())
}

/// Writes the packet of a copy, which is put together in `buf`.
pub fn put_frame<O: Sink>(frame: &Frame, buf: &mut FrameBuf, out: &mut O) -> Result<(), PutFault>
    requires short { length frame.now.packet ≤ LONGEST_PACKET }
    requires soon { frame.now.event ≤ most_lines }
    ensures text { Puts (O.held out.old) (O.held out.new) (record_of frame.now) result }
    ensures cause { HasCause (O.faults out.old) (O.faults out.new) result }
{
    frame.put_into(buf);
    put_all(out, buf.as_slice())
}

/// Writes that a line is refused.
#[tactic(auto, unfolding(crate::specs::Outputs::bad_line))]
pub fn put_bad<O: Sink>(line: u64, out: &mut O) -> Result<(), PutFault>
    ensures text { Puts (O.held out.old) (O.held out.new) (bad_line line) result }
    ensures cause { HasCause (O.faults out.old) (O.faults out.new) result }
{
    let mut buf = LineBuf::new();
    push_text(&mut buf, b"bad line ");
    push_number(&mut buf, line);
    buf.push(b'\n');
    put_all(out, buf.as_slice())
}
