//! A capture as a script: what each line of a printed text writes.
ghost use Rattle.std.specs.Prelude.{◌≡◌, ◌≤◌, ◌+◌, length, IfSome, ⊤};
ghost use Rattle.mesh_base.specs.declared.limits.TheConstants.{LONGEST_PACKET};
ghost use Rattle.mesh_io.specs.Puts.{Puts};
ghost use Rattle.mesh_io.specs.Cause.{HasCause};
ghost use Rattle.mesh_capture.specs.Copies.{nothing_read};
ghost use Rattle.mesh_capture.specs.Kept.{most_lines};
ghost use Rattle.mesh_capture.specs.Captures.{framed_if};

use crate::copies::Copies;
use crate::frame::{Frame, FrameBuf};
use crate::lines::{put_frame, put_header};
use crate::packets::ReadError;
use crate::status::CaptureVerdict;
use arrayvec::ArrayVec;
use mesh_io::{PutFault, Sink};
use mesh_shell::{Fault, Limit, Script};
use std::alloc::Global;
use std::marker::Model;

/// A capture between two lines of its text: what the lines above say about copies, and a buffer in
/// which the bytes of one packet are put together.
#[derive(Drop)]
pub struct Capturing {
    copies: Copies,
    buf: FrameBuf,
}

impl Model for Capturing {
    ghost use Rattle.mesh_capture.specs.Copies.{Reading};

    ghost Value = { Reading };

    ghost view = { λ c. c.copies };
}

impl Capturing {
    /// Nothing is read yet, and no memory taken.
    pub fn new(alloc: Global) -> Capturing
        ensures { result ≡ nothing_read }
    {
        Capturing {
            copies: Copies::new(alloc),
            buf: ArrayVec::new(),
        }
    }
}

// Writes the packet of the copy that a line has ended, if it has ended one.
fn put_ended<O: Sink>(frame: Option<Frame>, buf: &mut FrameBuf, out: &mut O) -> Result<(), PutFault>
    requires short { IfSome frame (λ f. length f.packet ≤ LONGEST_PACKET) }
    requires soon { IfSome frame (λ f. f.event ≤ most_lines) }
    ensures text { Puts (O.held out.old) (O.held out.new) (framed_if frame) result }
    ensures cause { HasCause (O.faults out.old) (O.faults out.new) result }
{
    match frame {
        Some(frame) => put_frame(&frame, buf, out),
        None => Ok(()),
    }
}

impl Script for Capturing {
    ghost use Rattle.mesh_io.specs.declared.limits.TheConstants.{LONGEST_TEXT_LINE};
    ghost use Rattle.std.proofs.Common.{arith};
    ghost use Rattle.mesh_capture.specs.Kept.{most_lines};
    ghost use Rattle.mesh_capture.specs.Captures.{capture};
    ghost use Rattle.mesh_capture.specs.declared.status.CaptureVerdict.TheVariants as verdict;

    type Verdict = CaptureVerdict;

    ghost fold = { capture };

    ghost leads = { λ before size after. after.lines ≤ before.lines + size };

    ghost has_room = { λ r size. r.lines + size ≤ most_lines };

    ghost longest = { LONGEST_TEXT_LINE };

    ghost is_sound = { λ r. ⊤ };

    ghost is_final = { λ v. v ≡ verdict.Done };

    fn begin<O: Sink>(&mut self, out: &mut O) -> Result<(), Fault> {
        put_header(&mut self.buf, out)?;
        Ok(())
    }

    fn line<O: Sink>(&mut self, line: &[u8], out: &mut O) -> Result<Option<CaptureVerdict>, Fault> {
        let number = self.copies.lines() + 1;
        match self.copies.read(line) {
            Ok(frame) => {
                put_ended(frame, &mut self.buf, out)?;
                Ok(None)
            }
            Err(ReadError::BadLine) => Ok(Some(CaptureVerdict::BadLine { line: number })),
            Err(ReadError::NoMemory) => Err(Fault::NoMemory),
        }
    }

    fn past<O: Sink>(&mut self, _limit: Limit, _out: &mut O) -> Result<CaptureVerdict, Fault> {
        Ok(CaptureVerdict::BadLine {
            line: self.copies.lines() + 1,
        })
    }

    fn end<O: Sink>(&mut self, _out: &mut O) -> Result<CaptureVerdict, Fault> {
        Ok(CaptureVerdict::Done)
    }

    ghost stays = { λ m n. Prim.omega arith };

    ghost joins = { λ a b c m n p q. Prim.omega arith };

    ghost leaves = { λ a b m n p q. Prim.omega arith };
}
