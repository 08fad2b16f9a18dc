//! A run from its source to its sink.
ghost use Rattle.std.specs.Prelude.{◌≡◌, ◌≤◌, ◌<◌, ◌+◌, ◌^◌, [], IfSome, IfOk, IsErrOf};
ghost use Rattle.std.specs.Io.KnownBytes.{IsAtEnd};
ghost use Rattle.mesh_io.specs.Buffering.{inner_of, gathered_in, held_by};
ghost use Rattle.mesh_io.specs.Cutting.{HasRoom};
ghost use Rattle.mesh_shell.specs.Fold.{text_on};
ghost use Rattle.mesh_shell.specs.Outputs.{IsOutputFrom};
ghost use Rattle.mesh_shell.specs.Causes.{HasFaultCause, HasSourceCause};

use crate::fault::Fault;
use crate::reader::LineReader;
use crate::script::Script;
use crate::scripted::do_lines;
use mesh_io::{Buffered, Cutter, Limits, Loan, ReservedBuffer, Sink, Source, Through};
use std::alloc::Global;
use std::marker::Brand;

// Does lines, whose text goes to a buffer, and hands on what is gathered, unless a write failed.
fn do_gathered<S: Script, R: LineReader, O: Sink>(
    script: &mut S,
    lines: &mut R,
    buffer: &mut Buffered<O>,
) -> Result<S::Verdict, Fault>
    requires short { (R.limits lines.old).line ≤ S.longest }
    requires room { S.has_room script.old ((R.limits lines.old).input + 1) }
    requires pending { R.pending lines.old ≡ [] }
    requires given { R.given lines.old ≡ 0 }
    ensures same { R.name lines.new ≡ R.name lines.old }
    ensures known { IfSome (R.left lines.old) (λ bytes.
        IsOutputFrom S.fold (R.limits lines.old) script.old bytes (R.left lines.new)
        (held_by O.held buffer.old) (held_by O.held buffer.new) result) }
    ensures after { IfOk result (λ v. S.is_final v → IfSome (R.left lines.old)
        (λ bytes. script.new ≡ (text_on S.fold (R.limits lines.old) script.old bytes).after)) }
    ensures leads { IfOk result (λ v. S.is_final v
        → S.leads script.old (R.limits lines.old).input script.new) }
    ensures sound { IfOk result (λ v. S.is_final v → S.is_sound script.new) }
    ensures end { IfOk result (λ v. S.is_final v → IsAtEnd (R.left lines.new)) }
    ensures handed_on { ¬ IsErrOf result Fault.WriteFault → gathered_in buffer.new ≡ [] }
    ensures read { HasSourceCause (R.faults lines.old) (R.faults lines.new) result }
    ensures write { HasFaultCause Fault.WriteFault
        (O.faults (inner_of buffer.old)) (O.faults (inner_of buffer.new)) result }
{
    let result = do_lines(script, lines, buffer);
    if let Err(Fault::WriteFault) = result {
        return result;
    }
    match buffer.flush() {
        Ok(()) => result,
        Err(_) => Err(Fault::WriteFault),
    }
}

// Does lines with a buffer before the sink. The reference to the sink is returned.
fn do_through<'s, S: Script, R: LineReader, O: Sink, L: Loan>(
    room: ReservedBuffer,
    script: &mut S,
    lines: &mut R,
    out: &'s mut O,
    answer: &mut Result<S::Verdict, Fault>,
) -> &'s mut O
    requires short { (R.limits lines.old).line ≤ S.longest }
    requires room { S.has_room script.old ((R.limits lines.old).input + 1) }
    requires pending { R.pending lines.old ≡ [] }
    requires given { R.given lines.old ≡ 0 }
    requires name { out.ghost_name ≡ L.name }
    requires start { O.held out.now ≡ L.start }
    ensures sink { result.ghost_name ≡ out.entry.ghost_name }
    ensures same { R.name lines.new ≡ R.name lines.old }
    ensures known { IfSome (R.left lines.old) (λ bytes.
        IsOutputFrom S.fold (R.limits lines.old) script.old bytes (R.left lines.new)
        (O.held out.entry.now) (O.held result.now) answer.new) }
    ensures after { IfOk answer.new (λ v. S.is_final v → IfSome (R.left lines.old)
        (λ bytes. script.new ≡ (text_on S.fold (R.limits lines.old) script.old bytes).after)) }
    ensures leads { IfOk answer.new (λ v. S.is_final v
        → S.leads script.old (R.limits lines.old).input script.new) }
    ensures sound { IfOk answer.new (λ v. S.is_final v → S.is_sound script.new) }
    ensures end { IfOk answer.new (λ v. S.is_final v → IsAtEnd (R.left lines.new)) }
    ensures read { HasSourceCause (R.faults lines.old) (R.faults lines.new) answer.new }
    ensures write { HasFaultCause Fault.WriteFault
        (O.faults out.entry.now) (O.faults result.now) answer.new }
{
    let mut buffer: Buffered<Through<'s, O, L>> = Buffered::lent(out, room);
    *answer = do_gathered(script, lines, &mut buffer);
    buffer.give_back()
}

// Does lines from their reader to a sink. The buffer's memory is taken first.
fn do_buffered<S: Script, R: LineReader, O: Sink>(
    alloc: Global,
    script: &mut S,
    lines: &mut R,
    out: &mut O,
) -> Result<S::Verdict, Fault>
    requires short { (R.limits lines.old).line ≤ S.longest }
    requires room { S.has_room script.old ((R.limits lines.old).input + 1) }
    requires pending { R.pending lines.old ≡ [] }
    requires given { R.given lines.old ≡ 0 }
    ensures same { R.name lines.new ≡ R.name lines.old }
    ensures known { IfSome (R.left lines.old) (λ bytes.
        IsOutputFrom S.fold (R.limits lines.old) script.old bytes (R.left lines.new)
        (O.held out.old) (O.held out.new) result) }
    ensures after { IfOk result (λ v. S.is_final v → IfSome (R.left lines.old)
        (λ bytes. script.new ≡ (text_on S.fold (R.limits lines.old) script.old bytes).after)) }
    ensures leads { IfOk result (λ v. S.is_final v
        → S.leads script.old (R.limits lines.old).input script.new) }
    ensures sound { IfOk result (λ v. S.is_final v → S.is_sound script.new) }
    ensures end { IfOk result (λ v. S.is_final v → IsAtEnd (R.left lines.new)) }
    ensures read { HasSourceCause (R.faults lines.old) (R.faults lines.new) result }
    ensures write { HasFaultCause Fault.WriteFault (O.faults out.old) (O.faults out.new) result }
{
    let Ok(room) = ReservedBuffer::new(alloc) else {
        return Err(Fault::NoMemory);
    };
    let mut answer = Err(Fault::NoMemory);
    // The binding makes it known that `out` is as the buffer has left it.
    let _out = do_through::<S, R, O, Brand>(room, script, lines, out, &mut answer);
    answer
}

/// Runs a script over the lines of a source, up to its end or the first line that ends the run, and
/// writes its text to the sink. A line has at most `most.line` bytes, and the input `most.input`;
/// `CAPACITY` bytes have to hold the longest line and one read.
///
/// What is written is gathered in a buffer of 65536 bytes, whose memory is taken first. It is
/// handed on when it is full, before each read of the source, and at the end, unless a write has
/// failed.
pub fn run<S: Script, I: Source, O: Sink, const CAPACITY: usize>(
    alloc: Global,
    script: &mut S,
    most: Limits,
    input: &mut I,
    out: &mut O,
) -> Result<S::Verdict, Fault>
    requires fits { HasRoom most CAPACITY }
    requires small { CAPACITY < 2 ^ 32 }
    requires short { most.line ≤ S.longest }
    requires room { S.has_room script.old (most.input + 1) }

    // What is written is the text of the input, and the answer is its verdict. If a write failed,
    // or memory ran out, what is written is a prefix of that text; if a read failed, it is the text
    // of the lines that were read whole.
    ensures known { IfSome (I.left input.old) (λ bytes.
        IsOutputFrom S.fold most script.old bytes (I.left input.new)
        (O.held out.old) (O.held out.new) result) }

    // A final verdict is answered only if the input was read to its end, and the script is then in
    // the state to which the input leads.
    ensures end { IfOk result (λ v. S.is_final v → IsAtEnd (I.left input.new)) }
    ensures after { IfOk result (λ v. S.is_final v → IfSome (I.left input.old)
        (λ bytes. script.new ≡ (text_on S.fold most script.old bytes).after)) }
    ensures leads { IfOk result (λ v. S.is_final v → S.leads script.old most.input script.new) }
    ensures sound { IfOk result (λ v. S.is_final v → S.is_sound script.new) }

    // A read fault is answered only if the source has failed in this call, and a write fault only
    // if the sink has. If one of them has failed, one of these two faults is answered; if the sink
    // has, it is the write fault.
    ensures read { HasSourceCause (I.faults input.old) (I.faults input.new) result }
    ensures write { HasFaultCause Fault.WriteFault (O.faults out.old) (O.faults out.new) result }
{
    let mut lines: Cutter<'_, I, CAPACITY> = Cutter::new(input, most);
    let result = do_buffered(alloc, script, &mut lines, out);
    // The binding makes it known that `input` is the source as the lines have left it.
    let _input = lines.give_back();
    result
}
