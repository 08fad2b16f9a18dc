//! Writing the checkpoint of a state.
ghost use Rattle.std.specs.Prelude.{◌≡◌, ◌<◌, ◌≤◌, ◌↔◌, min, [], true, false, OnOk, IsErrOf};
ghost use Rattle.mesh_text.specs.Schedule.{world_of};
ghost use Rattle.mesh_run.specs.Causes.{HasCauseIf};
ghost use Rattle.mesh_checkpoint.specs.declared.limits.TheConstants as limits;
ghost use Rattle.mesh_checkpoint.specs.Checkpoint as model;
ghost use Rattle.mesh_checkpoint.specs.Heads.{AreSums};
ghost use Rattle.mesh_checkpoint.specs.State.{body_length};
ghost use Rattle.mesh_checkpoint.specs.Points.{head_of, body_of, IsTooLong};
ghost use Rattle.mesh_save.specs.declared.saving.SaveError.TheVariants as errors;
ghost use Rattle.mesh_save.specs.Encoders.{IsPut, most_counted};
ghost use Rattle.mesh_save.specs.Saved.{checkpoint_stating, IsWritten, IsCut};

use crate::body::put_body;
use crate::encoder::{BufferedWriter, Encoder, LengthCounter};
use crate::fields::put32;
use arrayvec::ArrayVec;
use mesh_checkpoint::LONGEST_BODY;
use mesh_io::{Loan, Sink, Through};
use mesh_run::Point;
use mesh_world::World;
use std::marker::Brand;
use thiserror::Error;

/// Why no checkpoint was written.
#[derive(Clone, Copy, Debug, PartialEq, Eq, Error)]
pub enum SaveError {
    /// The body would be longer than `LONGEST_BODY`. Nothing was written.
    #[error("a body that is too long")]
    TooBig,
    /// The sink has failed.
    #[error("a write failed")]
    WriteFault,
}

// How many bytes the body of a state has, up to the greatest number of 64 bits.
fn measure(point: &Point<World>) -> u64
    requires steps { point.now.steps ≤ limits.MOST_STEPS }
    requires next { (world_of point.now).next_copy ≤ limits.GREATEST_NEXT_ID }
    requires sums { AreSums (head_of point.now) }
    ensures length { min result most_counted ≡ min (body_length (body_of point.now)) most_counted }
    ensures fits { body_length (body_of point.now) ≤ limits.LONGEST_BODY
        → model.body.fits (body_of point.now) ≡ true }
{
    let mut counter = LengthCounter { length: 0 };
    put_body(&mut counter, point);
    counter.length
}

// Puts the checkpoint of a state, whose head says that the body has `length` bytes.
fn put_checkpoint<P: Encoder>(encoder: &mut P, point: &Point<World>, length: u64)
    ensures { P.wrote encoder.old (checkpoint_stating length point.now) encoder.new }
{
    encoder.put(b"AWN1");
    put32(encoder, length);
    put_body(encoder, point);
}

// Writes the checkpoint to a sink, up to its first fault.
fn write_gathered<S: Sink>(writer: &mut BufferedWriter<S>, point: &Point<World>, length: u64)
    requires sound { writer.old.failed ≡ false }
    requires nothing { writer.old.gathered.items ≡ [] }
    ensures { IsPut (checkpoint_stating length point.now) writer.new.failed
        (S.held writer.old.out) (S.held writer.new.out)
        (S.faults writer.old.out) (S.faults writer.new.out) }
{
    put_checkpoint(writer, point, length);
    if !writer.failed {
        writer.flush();
    }
}

// Writes the checkpoint to a sink, up to its first fault, and returns the sink.
fn write_through<'s, O: Sink, L: Loan>(
    point: &Point<World>,
    length: u64,
    out: &'s mut O,
    failed: &mut bool,
) -> &'s mut O
    requires name { out.ghost_name ≡ L.name }
    requires start { O.held out.now ≡ L.start }
    ensures same { result.ghost_name ≡ out.entry.ghost_name }
    ensures put { IsPut (checkpoint_stating length point.now) failed.new
        (O.held out.entry.now) (O.held result.now)
        (O.faults out.entry.now) (O.faults result.now) }
{
    let through: Through<'s, O, L> = Through::new(out);
    let mut writer = BufferedWriter {
        out: through,
        gathered: ArrayVec::new(),
        failed: false,
    };
    write_gathered(&mut writer, point, length);
    *failed = writer.failed;
    let BufferedWriter {
        out,
        gathered: _,
        failed: _,
    } = writer;
    let Through { to, loan: _ } = out;
    to
}

// Writes the checkpoint to a sink, up to its first fault. Answers whether there was one.
fn write_out<O: Sink>(point: &Point<World>, length: u64, out: &mut O) -> bool
    ensures { IsPut (checkpoint_stating length point.now) result
        (O.held out.old) (O.held out.new) (O.faults out.old) (O.faults out.new) }
{
    let mut failed = false;
    // Its contract says that the sink that it returns is `out`, as the buffer has left it.
    let _out = write_through::<O, Brand>(point, length, out, &mut failed);
    failed
}

/// Writes the checkpoint of a state. Its body is measured first, and then written, many bytes at a
/// time. No memory is allocated.
pub fn save<O: Sink>(point: &Point<World>, out: &mut O) -> Result<(), SaveError>
    requires steps { point.now.steps ≤ limits.MOST_STEPS }
    requires next { (world_of point.now).next_copy ≤ limits.GREATEST_NEXT_ID }
    requires lines { point.now.lines < limits.SUMS_END }
    requires events { point.now.sums.events < limits.SUMS_END }
    requires idle { point.now.sums.idle < limits.SUMS_END }
    requires given { point.now.sums.given < limits.SUMS_END }
    requires delivered { point.now.sums.delivered < limits.SUMS_END }
    requires lost { point.now.sums.lost < limits.SUMS_END }
    requires copied { point.now.sums.copied < limits.SUMS_END }
    ensures saved { OnOk result (IsWritten point.now (O.held out.old) (O.held out.new)) }
    ensures cut { IsErrOf result errors.WriteFault
        → IsCut point.now (O.held out.old) (O.held out.new) }
    ensures too_big { IsErrOf result errors.TooBig ↔ IsTooLong point.now }
    ensures untouched { IsErrOf result errors.TooBig → out.new ≡ out.old }
    ensures cause { HasCauseIf (IsErrOf result errors.WriteFault)
        (O.faults out.old) (O.faults out.new) }
{
    let length = measure(point);
    if length > LONGEST_BODY {
        return Err(SaveError::TooBig);
    }
    let failed = write_out(point, length, out);
    if failed {
        Err(SaveError::WriteFault)
    } else {
        Ok(())
    }
}
