//! The run of a schedule that is read.
ghost use Rattle.std.specs.Prelude.{◌≡◌, ◌≢◌, IfSome};
ghost use Rattle.std.specs.Io.KnownBytes.{IsAtEnd};
ghost use Rattle.mesh_text.specs.Schedule.{opening};
ghost use Rattle.mesh_run.specs.Causes.{HasStatusCause, HasSourceCause};
ghost use Rattle.mesh_run.specs.Outputs.{say_by, IsOutputFrom};

use mesh_base::Variant;
use mesh_io::{Sink, Source};
use mesh_run::{Point, Running, Say, Status, do_input};
use mesh_world::World;
use std::alloc::Global;
use std::mem::forget;

/// Runs the schedule that the source gives, with all nodes running this variant of the protocol,
/// and writes its text, or only the last line if `quiet`.
#[inline(never)]
pub fn run_schedule<I: Source, O: Sink>(
    alloc: Global,
    quiet: bool,
    variant: Variant,
    input: &mut I,
    out: &mut O,
) -> Status
    ensures known { IfSome (I.left input.old) (λ bytes. IsOutputFrom (say_by quiet)
        (opening variant) bytes (I.left input.new) (O.held out.old) (O.held out.new) result) }
    ensures end { result ≡ Status.Done → IsAtEnd (I.left input.new) }
    ensures read { HasSourceCause (I.faults input.old) (I.faults input.new) result }
    ensures write { HasStatusCause Status.WriteFault (O.faults out.old) (O.faults out.new) result }
    ensures words { result ≢ Status.Usage }
{
    let mut running: Running<World> = Running {
        alloc,
        at: Point::with(variant),
        say: Say::by(quiet),
    };
    let status = do_input(&mut running, input, out);
    forget(running);
    status
}
