//! The top call.
ghost use Rattle.std.specs.Prelude.{◌≡◌, ◌≢◌, ◌↔◌, ◌⊎◌, map, None, IfSome};
ghost use Rattle.std.specs.Io.KnownBytes.{IsAtEnd};
ghost use Rattle.mesh_base.specs.declared.events.Variant.TheVariants.{Base};
ghost use Rattle.mesh_io.specs.Cause.{Rose};
ghost use Rattle.mesh_run.specs.Causes.{HasSourceCause, HasStatusCause};
ghost use Rattle.mesh_text.specs.declared.verdict.Verdict.TheVariants.{Finished};
ghost use Rattle.mesh_grid.specs.Text.{text_of_input};
ghost use Rattle.mesh_places.specs.Words.{reach_of};
ghost use Rattle.mesh_places.specs.Outputs.{IsRun};

use crate::placed::Placed;
use crate::words::reach_of;
use mesh_io::{Limits, SCHEDULE_CAPACITY, Sink, Source};
use mesh_run::Status;
use std::alloc::Global;

// Runs a schedule with places.
fn run<I: Source, O: Sink>(alloc: Global, reach: u32, input: &mut I, out: &mut O) -> Status
    ensures known { IfSome (I.left input.old) (λ bytes. IsRun reach bytes
        (I.left input.new) (O.held out.old) (O.held out.new) result) }
    ensures end { result ≡ Status.Done → IsAtEnd (I.left input.new) }
    ensures read { HasSourceCause (I.faults input.old) (I.faults input.new) result }
    ensures write { HasStatusCause Status.WriteFault (O.faults out.old) (O.faults out.new) result }
    ensures words { result ≢ Status.Usage }
{
    let mut placed = Placed::with(alloc, reach);
    let answer = mesh_shell::run::<Placed, I, O, SCHEDULE_CAPACITY>(
        alloc,
        &mut placed,
        Limits::of_schedule(),
        input,
        out,
    );
    Status::of(answer)
}

/// Runs the schedule with places that the source gives, in a world of its own where all nodes run
/// the protocol as AWN has it, and writes its text to the sink, line by line. The one word is the
/// reach, a number from 1 to 1000000: two nodes are linked exactly where both have places that are
/// at most this far apart.
///
/// What is written is gathered in a buffer of 65536 bytes, and handed on when that is full, before
/// each read of the source, and at the end, unless a write has failed.
pub fn places<I: Source, O: Sink>(
    alloc: Global,
    words: &[&str],
    input: &mut I,
    out: &mut O,
) -> Status
    // If the words aren't one word that denotes a reach, nothing is read or written.
    ensures usage_exactly_for_other_words { (result ≡ Status.Usage)
        ↔ (reach_of (map (λ w. w.now) words.now) ≡ None) }
    ensures untouched_by_other_words { result ≡ Status.Usage
        → (input.new ≡ input.old) × (out.new ≡ out.old) }

    // What is written is the text of the input, and the answer is its verdict. After a failed write
    // or a lack of memory, a prefix of that text is written; after a failed read, the text of the
    // lines that were read whole. After each line of that run, and after each event of the next,
    // the world is the one to which its events so far lead, and in no such world does a destination
    // have a loop; and after each line the links that stand are those that follow from the places.
    ensures text_of_a_loop_free_run { IfSome (reach_of (map (λ w. w.now) words.now)) (λ reach.
        IfSome (I.left input.old) (λ bytes. IsRun reach bytes
        (I.left input.new) (O.held out.old) (O.held out.new) result)) }

    // Done comes only if the input was read to its end.
    ensures done_at_the_end { result ≡ Status.Done → IsAtEnd (I.left input.new) }

    // A fault is answered only if the source or the sink has failed in this call, and no other
    // answer comes if one of them has.
    ensures cause_of_read_fault { HasSourceCause (I.faults input.old) (I.faults input.new) result }
    ensures cause_of_write_fault { HasStatusCause Status.WriteFault
        (O.faults out.old) (O.faults out.new) result }

    // If every line is allowed, no event is refused, and neither the source nor the sink has
    // failed, the whole text is written, unless memory runs out.
    ensures complete { IfSome (reach_of (map (λ w. w.now) words.now)) (λ reach.
        IfSome (I.left input.old) (λ bytes. (text_of_input reach Base bytes).verdict ≡ Finished
        → (Rose (I.faults input.old) (I.faults input.new) → ⊥)
        → (Rose (O.faults out.old) (O.faults out.new) → ⊥)
        → (result ≡ Status.Done) ⊎ (result ≡ Status.NoMemory))) }
{
    match reach_of(words) {
        Some(reach) => run(alloc, reach, input, out),
        None => Status::Usage,
    }
}
