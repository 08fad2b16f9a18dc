//! A watched run from its source to its sink.
ghost use Rattle.std.specs.Prelude.{◌≡◌, ◌≢◌, ◌⊎◌, IfSome};
ghost use Rattle.std.specs.Io.KnownBytes.{IsAtEnd};
ghost use Rattle.mesh_io.specs.Cause.{Rose};
ghost use Rattle.mesh_text.specs.Text.{text_of_input};
ghost use Rattle.mesh_text.specs.declared.verdict.Verdict.TheVariants.{Finished};
ghost use Rattle.mesh_run.specs.Causes.{HasSourceCause, HasStatusCause};
ghost use Rattle.mesh_blocks.specs.Outputs.{IsRun};

use crate::below::{Below, Form, WithBlocks, WithChanges};
use crate::watched::Watched;
use mesh_base::Variant;
use mesh_io::{Limits, SCHEDULE_CAPACITY, Sink, Source};
use mesh_run::Status;
use std::alloc::Global;

// `run` in one form.
fn run_as<F: Form, I: Source, O: Sink>(
    alloc: Global,
    variant: Variant,
    input: &mut I,
    out: &mut O,
) -> Status
    ensures known { IfSome (I.left input.old) (λ bytes. IsRun F.below variant bytes
        (I.left input.new) (O.held out.old) (O.held out.new) result) }
    ensures end { result ≡ Status.Done → IsAtEnd (I.left input.new) }
    ensures read { HasSourceCause (I.faults input.old) (I.faults input.new) result }
    ensures write { HasStatusCause Status.WriteFault (O.faults out.old) (O.faults out.new) result }
    ensures words { result ≢ Status.Usage }
    ensures complete { IfSome (I.left input.old) (λ bytes.
        (text_of_input variant bytes).verdict ≡ Finished
        → (Rose (I.faults input.old) (I.faults input.new) → ⊥)
        → (Rose (O.faults out.old) (O.faults out.new) → ⊥)
        → (result ≡ Status.Done) ⊎ (result ≡ Status.NoMemory)) }
{
    let mut watched: Watched<F> = Watched::with(alloc, variant);
    let answer = mesh_shell::run::<Watched<F>, I, O, SCHEDULE_CAPACITY>(
        alloc,
        &mut watched,
        Limits::of_schedule(),
        input,
        out,
    );
    Status::of(answer)
}

/// Runs the schedule that the source gives, in a world of its own where all nodes run this variant
/// of the protocol, and writes its text to the sink, line by line. Below each event that has
/// changed a node it writes what is asked for: with `Blocks`, what a line `show` of that node
/// writes in the state after the event; with `Changes`, a line that names the node, and then each
/// line of that block that went with the event or came. These are in the block's order; between two
/// lines that stay, those that went are before those that came.
///
/// What is written is gathered in a buffer of 65536 bytes, and handed on when that is full, before
/// each read of the source, and at the end, unless a write has failed. With `Changes` two blocks
/// are held in memory.
#[inline(never)]
pub fn run<I: Source, O: Sink>(
    alloc: Global,
    variant: Variant,
    below: Below,
    input: &mut I,
    out: &mut O,
) -> Status
    // What is written is the text of the input with its blocks, or their changes, and the answer is
    // its verdict. After a failed write or a lack of memory, a prefix of that text is written;
    // after a failed read, the text of the lines that were read whole. A block and its changes are
    // whole lines, directly below those of the event, and are of the node that the event has
    // changed. After each line of that run, and after each event of the next, the world is that of
    // the run without blocks, to which its events so far lead, and in no such world does a
    // destination have a loop.
    ensures known { IfSome (I.left input.old) (λ bytes. IsRun below variant bytes
        (I.left input.new) (O.held out.old) (O.held out.new) result) }

    // Done comes only if the input was read to its end.
    ensures end { result ≡ Status.Done → IsAtEnd (I.left input.new) }

    // A fault is answered only if the source or the sink has failed in this call, and no other
    // answer comes if one of them has.
    ensures read { HasSourceCause (I.faults input.old) (I.faults input.new) result }
    ensures write { HasStatusCause Status.WriteFault (O.faults out.old) (O.faults out.new) result }
    ensures words { result ≢ Status.Usage }

    // If every line is allowed, no event is refused, and neither the source nor the sink has
    // failed, the whole text is written, unless memory runs out.
    ensures complete { IfSome (I.left input.old) (λ bytes.
        (text_of_input variant bytes).verdict ≡ Finished
        → (Rose (I.faults input.old) (I.faults input.new) → ⊥)
        → (Rose (O.faults out.old) (O.faults out.new) → ⊥)
        → (result ≡ Status.Done) ⊎ (result ≡ Status.NoMemory)) }
{
    match below {
        Below::Blocks => run_as::<WithBlocks, I, O>(alloc, variant, input, out),
        Below::Changes => run_as::<WithChanges, I, O>(alloc, variant, input, out),
    }
}
