//! The top call.
ghost use Rattle.std.specs.Prelude.{ℕ, ◌≡◌, ◌≢◌, ◌↔◌, ◌<◌, ◌⊎◌, length, IfSome};
ghost use Rattle.std.specs.Io.KnownBytes.{IsAtEnd};
ghost use Rattle.mesh_io.specs.Cause.{Rose};
ghost use Rattle.mesh_capture.specs.Captures.{capture_of};
ghost use Rattle.mesh_capture.specs.Outputs.{IsFile, IsSaid, IsDecided, IsRefused};
ghost use Rattle.mesh_capture.specs.Causes.{HasSourceCause, HasStatusCause};

use crate::capturing::Capturing;
use crate::lines::put_bad;
use crate::status::CaptureStatus;
use mesh_io::{Limits, Sink, Source, TEXT_CAPACITY};
use mesh_shell::run;
use std::alloc::Global;

// Writes the capture of the text that a source gives.
fn write_file<I: Source, O: Sink>(alloc: Global, input: &mut I, out: &mut O) -> CaptureStatus
    ensures known { IfSome (I.left input.old) (λ text.
        IsFile text (I.left input.new) (O.held out.old) (O.held out.new) result) }
    ensures end { result ≡ CaptureStatus.Done → IsAtEnd (I.left input.new) }
    ensures read { HasSourceCause (I.faults input.old) (I.faults input.new) result }
    ensures write { HasStatusCause CaptureStatus.WriteFault
        (O.faults out.old) (O.faults out.new) result }
    ensures words { result ≢ CaptureStatus.Usage }
{
    let mut capturing = Capturing::new(alloc);
    let most = Limits::of_text();
    let answer = run::<Capturing, I, O, TEXT_CAPACITY>(alloc, &mut capturing, most, input, out);
    CaptureStatus::of(answer)
}

// Says that a line is refused.
fn refuse<E: Sink>(line: u64, errors: &mut E) -> CaptureStatus
    ensures said { IsRefused (E.held errors.old) (E.held errors.new) line result }
    ensures cause { HasStatusCause CaptureStatus.WriteFault
        (E.faults errors.old) (E.faults errors.new) result }
{
    match put_bad(line, errors) {
        Ok(()) => CaptureStatus::BadLine { line },
        Err(_) => CaptureStatus::WriteFault,
    }
}

/// Writes to `out` the capture of the printed text that the source gives: one packet for each copy
/// that was heard or lost. If a line is refused, the capture of the lines above it is written to
/// `out`, and a line `bad line N` to `errors`.
///
/// What is written to `out` is gathered in a buffer of 65536 bytes. It is handed on when the buffer
/// is full, before each read of the source, and at the end, unless a write has failed.
pub fn capture<I: Source, O: Sink, E: Sink>(
    alloc: Global,
    words: &[&str],
    input: &mut I,
    out: &mut O,
    errors: &mut E,
) -> CaptureStatus
    // If there is a word, nothing is read or written.
    ensures usage_exactly_for_a_word { (result ≡ CaptureStatus.Usage) ↔ (0 < length words.now) }
    ensures untouched_with_a_word { result ≡ CaptureStatus.Usage
        → (input.new ≡ input.old) × (out.new ≡ out.old) × (errors.new ≡ errors.old) }

    // What is written to `out` is the capture of the text, and the answer is its verdict. After a
    // failed write, or lack of memory, it is a prefix of that file; after a failed read it is the
    // header and the packets of the lines that were read whole.
    ensures file_of_the_text { length words.now ≡ 0 → IfSome (I.left input.old) (λ text.
        IsFile text (I.left input.new) (O.held out.old) (O.held out.new) result) }

    // Nothing is written to `errors` but the line of a refusal, or a prefix of that line after a
    // failed write.
    ensures line_of_a_refusal { length words.now ≡ 0 → IfSome (I.left input.old) (λ text.
        IsSaid (E.held errors.old) (E.held errors.new) (capture_of text) result) }

    // Whatever the text, nothing is written to `errors` if no line is refused and no write fails.
    ensures silent { ((n : ℕ) → result ≢ CaptureStatus.BadLine n)
        → result ≢ CaptureStatus.WriteFault → errors.new ≡ errors.old }

    // `Done` only if the input was read to its end.
    ensures done_at_the_end { result ≡ CaptureStatus.Done → IsAtEnd (I.left input.new) }

    // A fault is answered only if the source or a sink has failed in this call, and any other
    // answer only if none has. If the source and a sink have failed, the sink's fault is answered.
    ensures cause_of_read_fault { HasSourceCause (I.faults input.old) (I.faults input.new) result }
    ensures cause_of_write_fault { result ≡ CaptureStatus.WriteFault
        → Rose (O.faults out.old) (O.faults out.new)
        ⊎ Rose (E.faults errors.old) (E.faults errors.new) }
    ensures no_other_fault_of_out { result ≢ CaptureStatus.WriteFault
        → O.faults out.new ≡ O.faults out.old }
    ensures no_other_fault_of_errors { result ≢ CaptureStatus.WriteFault
        → E.faults errors.new ≡ E.faults errors.old }

    // If no source or sink has failed, the text is decided, or the answer is `NoMemory`.
    ensures complete { length words.now ≡ 0
        → (Rose (I.faults input.old) (I.faults input.new) → ⊥)
        → (Rose (O.faults out.old) (O.faults out.new) → ⊥)
        → (Rose (E.faults errors.old) (E.faults errors.new) → ⊥)
        → IsDecided result ⊎ (result ≡ CaptureStatus.NoMemory) }
{
    if !words.is_empty() {
        return CaptureStatus::Usage;
    }
    match write_file(alloc, input, out) {
        CaptureStatus::BadLine { line } => refuse(line, errors),
        status => status,
    }
}
