//! The top call.
ghost use Rattle.std.specs.Prelude.{◌≡◌, ◌≢◌, ◌↔◌, ◌<◌, ◌⊎◌, length, IfSome};
ghost use Rattle.std.specs.Io.KnownBytes.{IsAtEnd};
ghost use Rattle.mesh_io.specs.Cause.{Rose};
ghost use Rattle.mesh_check.specs.Says.{says, Refuses, Shows};
ghost use Rattle.mesh_check.specs.Verdicts.{IsOutput, IsCutOff, HasNoCycle, IsDecided};

use crate::lines::{put_bad, put_no, put_yes};
use crate::reading::{Checking, ReadVerdict, read_tables};
use crate::status::CheckStatus;
use mesh_io::{Sink, Source};
use mesh_shell::Fault;
use mesh_tables::PrintedTables;
use std::alloc::Global;

// Writes whether the tables are sound.
fn tell<O: Sink>(tables: &PrintedTables, out: &mut O) -> CheckStatus
    ensures written { IsOutput (O.held out.old) (O.held out.new) (Shows tables.now.closed) result }
    ensures acyclic { result ≡ CheckStatus.Yes → HasNoCycle (Shows tables.now.closed) }
    ensures write { result ≡ CheckStatus.WriteFault
        → Rose (O.faults out.old) (O.faults out.new) }
    ensures none { result ≢ CheckStatus.WriteFault → O.faults out.new ≡ O.faults out.old }
    ensures read { result ≢ CheckStatus.ReadFault }
    ensures memory { result ≢ CheckStatus.NoMemory }
    ensures words { result ≢ CheckStatus.Usage }
{
    match tables.first_failing() {
        None => match put_yes(tables, out) {
            Ok(()) => CheckStatus::Yes,
            Err(_) => CheckStatus::WriteFault,
        },
        Some(edge) => match put_no(&edge, out) {
            Ok(()) => CheckStatus::No,
            Err(_) => CheckStatus::WriteFault,
        },
    }
}

// Writes that a line is refused.
fn refuse<O: Sink>(line: u64, out: &mut O) -> CheckStatus
    ensures written { IsOutput (O.held out.old) (O.held out.new) (Refuses line) result }
    ensures write { result ≡ CheckStatus.WriteFault
        → Rose (O.faults out.old) (O.faults out.new) }
    ensures none { result ≢ CheckStatus.WriteFault → O.faults out.new ≡ O.faults out.old }
    ensures yes { result ≢ CheckStatus.Yes }
    ensures no { result ≢ CheckStatus.No }
    ensures read { result ≢ CheckStatus.ReadFault }
    ensures memory { result ≢ CheckStatus.NoMemory }
    ensures words { result ≢ CheckStatus.Usage }
{
    match put_bad(line, out) {
        Ok(()) => CheckStatus::BadLine { line },
        Err(_) => CheckStatus::WriteFault,
    }
}

/// Checks the tables that a printed text shows, from the source to the sink. One line is written at
/// the end: `yes nodes N edges E` if they are sound, `no D X Y` with the first edge that fails, by
/// rising destination and then by rising node, or `bad line N`.
pub fn check<I: Source, O: Sink>(
    alloc: Global,
    words: &[&str],
    input: &mut I,
    out: &mut O,
) -> CheckStatus
    // If there is a word, nothing is read or written.
    ensures usage_exactly_for_a_word { (result ≡ CheckStatus.Usage) ↔ (0 < length words.now) }
    ensures untouched_with_a_word { result ≡ CheckStatus.Usage
        → (input.new ≡ input.old) × (out.new ≡ out.old) }

    // The answer is the right one for the text, and the line that goes with it is written. After a
    // failed write, what is written is a prefix of that line; after a failed read, or lack of
    // memory, it is nothing.
    ensures answer_and_line { length words.now ≡ 0 → IfSome (I.left input.old) (λ text.
        IsOutput (O.held out.old) (O.held out.new) (says text) result) }

    // If the answer is `Yes`, no destination has a cycle in the tables that were shown.
    ensures loop_free { result ≡ CheckStatus.Yes
        → IfSome (I.left input.old) (λ text. HasNoCycle (says text)) }

    // The tables are judged only if the input was read to its end.
    ensures yes_at_the_end { result ≡ CheckStatus.Yes → IsAtEnd (I.left input.new) }
    ensures no_at_the_end { result ≡ CheckStatus.No → IsAtEnd (I.left input.new) }

    // A fault is answered only if the source or the sink has failed in this call, and no other
    // answer is given if one of them has.
    ensures cause_of_read_fault { result ≡ CheckStatus.ReadFault
        → Rose (I.faults input.old) (I.faults input.new) }
    ensures cause_of_write_fault { result ≡ CheckStatus.WriteFault
        → Rose (O.faults out.old) (O.faults out.new) }
    ensures no_other_fault_of_input { result ≢ CheckStatus.ReadFault
        → I.faults input.new ≡ I.faults input.old }
    ensures no_other_fault_of_out { result ≢ CheckStatus.WriteFault
        → O.faults out.new ≡ O.faults out.old }

    // If a read has failed, none of the lines that were read whole is refused.
    ensures cut_off { result ≡ CheckStatus.ReadFault
        → IfSome (I.left input.old) (λ text. IsCutOff text (I.left input.new)) }

    // Nothing is written about a text that couldn't be read.
    ensures nothing_written_after_read_fault { result ≡ CheckStatus.ReadFault → out.new ≡ out.old }
    ensures nothing_written_without_memory { result ≡ CheckStatus.NoMemory → out.new ≡ out.old }

    // If nothing has failed, the text is decided, unless memory runs out.
    ensures complete { length words.now ≡ 0
        → (Rose (I.faults input.old) (I.faults input.new) → ⊥)
        → (Rose (O.faults out.old) (O.faults out.new) → ⊥)
        → IsDecided result ⊎ (result ≡ CheckStatus.NoMemory) }
{
    if !words.is_empty() {
        return CheckStatus::Usage;
    }
    let mut checking = Checking {
        tables: PrintedTables::new(alloc),
    };
    match read_tables(alloc, &mut checking, input) {
        Ok(ReadVerdict::Read) => tell(&checking.tables, out),
        Ok(ReadVerdict::BadLine { line }) => refuse(line, out),
        Err(Fault::ReadFault) => CheckStatus::ReadFault,
        Err(Fault::NoMemory) => CheckStatus::NoMemory,
        // The lines are read with a sink that never fails.
        Err(Fault::WriteFault) => unreachable!(),
    }
}
