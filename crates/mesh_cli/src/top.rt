//! The top call.
ghost use Rattle.std.specs.Prelude.{◌≡◌, ◌≢◌, ◌↔◌, ℕ, true, false, map, None, IfSome};
ghost use Rattle.mesh_io.specs.Cause.{Rose};
ghost use Rattle.mesh_run.specs.Causes.{HasStatusCause, HasSourceCause};
ghost use Rattle.mesh_cli.specs.Words.{command_of, IsAllowed, IsPlan};
ghost use Rattle.mesh_cli.specs.Commands.{IsCommandRun, IsWritten, Completes, IsReadBy, reads, made_by};

use crate::schedule::run_schedule;
use crate::trial::trial;
use crate::words::{Command, Plan, command_of};
use mesh_io::{Sink, Source};
use mesh_make::make;
use mesh_run::Status;
use std::alloc::Global;

// Writes a made schedule. It isn't inlined, so that no other command pays for its frame.
#[inline(never)]
fn make_schedule<O: Sink>(plan: Plan, out: &mut O) -> Status
    requires { IsPlan plan }
    ensures written { IsWritten (O.held out.old) (O.held out.new) (made_by plan) result }
    ensures write { HasStatusCause Status.WriteFault (O.faults out.old) (O.faults out.new) result }
{
    match make(plan.seed, plan.nodes, plan.steps, out) {
        Ok(()) => Status::Done,
        Err(_) => Status::WriteFault,
    }
}

// Does a command, from the source to the sink.
fn do_command<I: Source, O: Sink>(
    alloc: Global,
    command: Command,
    input: &mut I,
    out: &mut O,
) -> Status
    requires { IsAllowed command }
    ensures known { IsCommandRun command (I.left input.old) (I.left input.new)
        (O.held out.old) (O.held out.new) result }
    ensures untouched { reads command ≡ false → input.new ≡ input.old }
    ensures end { result ≡ Status.Done → IsReadBy command (I.left input.new) }
    ensures read { HasSourceCause (I.faults input.old) (I.faults input.new) result }
    ensures reads { result ≡ Status.ReadFault → reads command ≡ true }
    ensures write { HasStatusCause Status.WriteFault (O.faults out.old) (O.faults out.new) result }
    ensures words { result ≢ Status.Usage }
{
    match command {
        Command::Run { variant, quiet } => run_schedule(alloc, quiet, variant, input, out),
        Command::Make(plan) => make_schedule(plan, out),
        Command::Trial { variant, plan } => trial(alloc, variant, plan, out),
    }
}

/// Does what the words of the command line say, from the source to the sink. `run` reads a schedule
/// and writes the text of its run, `run --quiet` only the text's last line; `make` writes the
/// schedule that a seed makes; `trial` runs such a schedule, and writes the last line of its text.
/// With `run --variant NAME` and `trial --variant NAME` all nodes run that variant of the protocol.
/// What `run` writes is gathered in a buffer of 65536 bytes, and handed on when that is full,
/// before each read of the source, and at the end, unless a write has failed. `make` writes some
/// 8000 bytes at a time, and takes no memory. The memory of a run is left to the process, which is
/// to end after this call.
pub fn mesh<I: Source, O: Sink>(alloc: Global, words: &[&str], input: &mut I, out: &mut O) -> Status
    // If the words are in none of the program's forms, nothing is read or written.
    ensures usage_exactly_for_other_words { (result ≡ Status.Usage)
        ↔ (command_of (map (λ w. w.now) words.now) ≡ None) }
    ensures untouched_by_other_words { result ≡ Status.Usage
        → (input.new ≡ input.old) × (out.new ≡ out.old) }

    // What is written is the text that the command asks for, and the answer is its verdict. After a
    // failed write or a lack of memory, a prefix of that text is written; after a failed read, the
    // text of the lines read whole, or nothing if quiet. In no world of the run, after any
    // number of its events, does a destination have a loop; in each of these worlds every datum is
    // accounted for; and the run's text names each datum that was delivered or dropped. For `run`
    // all this is claimed if the source's bytes are known; if they aren't, each world of the run is
    // safe all the same, as `do_input` says of the state that it leaves. `make` never runs out of
    // memory.
    ensures text_of_a_loop_free_run { IfSome (command_of (map (λ w. w.now) words.now)) (λ command.
        IsCommandRun command (I.left input.old) (I.left input.new)
        (O.held out.old) (O.held out.new) result) }

    // `run` answers Done only if the input was read to its end; `make` and `trial` read nothing.
    ensures done_at_the_end { IfSome (command_of (map (λ w. w.now) words.now)) (λ command.
        result ≡ Status.Done → IsReadBy command (I.left input.new)) }
    ensures nothing_read { IfSome (command_of (map (λ w. w.now) words.now)) (λ command.
        reads command ≡ false → (input.new ≡ input.old) × (result ≢ Status.ReadFault)) }

    // No line of a made schedule is refused.
    ensures no_bad_line { IfSome (command_of (map (λ w. w.now) words.now)) (λ command.
        reads command ≡ false → (n : ℕ) → result ≢ Status.BadLine n) }

    // A fault is answered only if the source or the sink has failed in this call, and no other
    // answer comes if one of them has.
    ensures cause_of_read_fault { HasSourceCause (I.faults input.old) (I.faults input.new) result }
    ensures cause_of_write_fault { HasStatusCause Status.WriteFault
        (O.faults out.old) (O.faults out.new) result }

    // If every line is allowed, no event is refused, and neither the source nor the sink has
    // failed, the whole text is written, unless memory runs out.
    ensures complete { IfSome (command_of (map (λ w. w.now) words.now)) (λ command.
        (Rose (I.faults input.old) (I.faults input.new) → ⊥)
        → (Rose (O.faults out.old) (O.faults out.new) → ⊥)
        → Completes command (I.left input.old) result) }
{
    match command_of(words) {
        Some(command) => do_command(alloc, command, input, out),
        None => Status::Usage,
    }
}
