//! The top call.
ghost use Rattle.std.specs.Prelude.{◌≡◌, ◌↔◌, ◌⊎◌, map, None, IfSome};
ghost use Rattle.std.specs.Io.KnownBytes.{IsAtEnd};
ghost use Rattle.mesh_io.specs.Cause.{Rose};
ghost use Rattle.mesh_text.specs.Text.{text_of_input};
ghost use Rattle.mesh_text.specs.declared.verdict.Verdict.TheVariants.{Finished};
ghost use Rattle.mesh_run.specs.Causes.{HasSourceCause, HasStatusCause};
ghost use Rattle.mesh_blocks.specs.Outputs.{IsRun};
ghost use Rattle.mesh_watch.specs.Words.{asked_of};

use crate::words::asked_of;
use mesh_blocks::run;
use mesh_io::{Sink, Source};
use mesh_run::Status;
use std::alloc::Global;

/// Runs the schedule that the source gives, in a world of its own, and writes its text to the sink,
/// line by line. Below each event that has changed a node it writes a block: what a line `show` of
/// that node writes in the state after the event. With a last word `--changes` it writes, in place
/// of a block, a line that names the node, and then each line of the block that went with the event
/// or came. These are in the block's order; between two lines that stay, those that went are before
/// those that came. All nodes run the protocol as AWN has it or, with the words `--variant NAME`,
/// that variant of it.
///
/// What is written is gathered in a buffer of 65536 bytes, and handed on when that is full, before
/// each read of the source, and at the end, unless a write has failed. With `--changes` two blocks
/// are held in memory.
pub fn watch<I: Source, O: Sink>(
    alloc: Global,
    words: &[&str],
    input: &mut I,
    out: &mut O,
) -> Status
    // If the words are in none of the program's forms, nothing is read or written.
    ensures usage_exactly_for_other_words { (result ≡ Status.Usage)
        ↔ (asked_of (map (λ w. w.now) words.now) ≡ None) }
    ensures untouched_by_other_words { result ≡ Status.Usage
        → (input.new ≡ input.old) × (out.new ≡ out.old) }

    // What is written is the text of the input with its blocks, or their changes, and the answer is
    // its verdict. After a failed write or a lack of memory, a prefix of that text is written;
    // after a failed read, the text of the lines that were read whole. A block and its changes are
    // whole lines, directly below those of the event, and are of the node that the event has
    // changed. After each line of that run, and after each event of the next, the world is that of
    // the run without blocks, to which its events so far lead, and in no such world does a
    // destination have a loop.
    ensures text_of_a_loop_free_run { IfSome (asked_of (map (λ w. w.now) words.now)) (λ asked.
        IfSome (I.left input.old) (λ bytes. IsRun asked.below asked.variant bytes
        (I.left input.new) (O.held out.old) (O.held out.new) result)) }

    // Done comes only if the input was read to its end.
    ensures done_at_the_end { result ≡ Status.Done → IsAtEnd (I.left input.new) }

    // A fault is answered exactly where the source or the sink has failed in this call; if both
    // have, the answer is the sink's fault.
    ensures cause_of_read_fault { HasSourceCause
        (I.faults input.old) (I.faults input.new) result }
    ensures cause_of_write_fault { HasStatusCause Status.WriteFault
        (O.faults out.old) (O.faults out.new) result }

    // If every line is allowed, no event is refused, and neither the source nor the sink has
    // failed, the whole text is written, unless memory runs out.
    ensures complete { IfSome (asked_of (map (λ w. w.now) words.now)) (λ asked.
        IfSome (I.left input.old) (λ bytes. (text_of_input asked.variant bytes).verdict ≡ Finished
        → (Rose (I.faults input.old) (I.faults input.new) → ⊥)
        → (Rose (O.faults out.old) (O.faults out.new) → ⊥)
        → (result ≡ Status.Done) ⊎ (result ≡ Status.NoMemory))) }
{
    match asked_of(words) {
        Some(asked) => run(alloc, asked.variant, asked.below, input, out),
        None => Status::Usage,
    }
}
