//! The top call.
ghost use Rattle.std.specs.Prelude.{◌≡◌, ◌≢◌, ◌<◌, ◌↔◌, ◌⊎◌, map, Some, None, IfSome};
ghost use Rattle.std.specs.Io.KnownBytes.{IsAtEnd};
ghost use Rattle.mesh_base.specs.Bounds.{most_lines_before_run, most_steps_before_run};
ghost use Rattle.mesh_base.specs.declared.events.Variant.TheVariants.{Base};
ghost use Rattle.mesh_text.specs.Schedule.{opening};
ghost use Rattle.mesh_run.specs.declared.say.Say.TheVariants.{Faults};
ghost use Rattle.mesh_run.specs.Causes.{HasSourceCause, HasStatusCause};
ghost use Rattle.mesh_run.specs.Outputs.{IsOutputFrom};
ghost use Rattle.mesh_run.specs.declared.say.Say.TheVariants.{All};
ghost use Rattle.mesh_checkpoint.specs.Points.{IsTooLong};
ghost use Rattle.mesh_save.specs.Saved.{IsWritten, IsCut};
ghost use Rattle.mesh_state.specs.Words.{asked_of};
ghost use Rattle.mesh_state.specs.Causes.{HasReadCause, HasWriteCause};
ghost use Rattle.mesh_state.specs.Answers.{answer_by, HasAnswered, HasGoneOn, HasCompleted, HasRefused};
ghost use Rattle.mesh_state.specs.Small.{IsSmall};

use crate::checkpoint_part::{CheckpointPartError, take_checkpoint_part};
use crate::status::StateStatus;
use crate::words::{Asked, asked_of};
use mesh_io::{Sink, Source};
use mesh_load::{StateError, a_run_is_unrefused, load, one_start};
use mesh_run::{Point, Running, Say, Status, do_input};
use mesh_save::SaveError;
use mesh_world::World;
use std::alloc::Global;

// Writes the checkpoint of a state.
fn put_state<O: Sink>(at: &Point<World>, out: &mut O) -> StateStatus
    requires { IsSmall at.now }
    ensures saved { result ≡ StateStatus.Run Status.Done
        → IsWritten at.now (O.held out.old) (O.held out.new) }
    ensures cut { result ≡ StateStatus.Run Status.WriteFault
        → IsCut at.now (O.held out.old) (O.held out.new) }
    ensures too_big { result ≡ StateStatus.TooBig
        → IsTooLong at.now × (O.held out.new ≡ O.held out.old) }
    ensures one { (result ≡ StateStatus.Run Status.Done)
        ⊎ ((result ≡ StateStatus.Run Status.WriteFault) ⊎ (result ≡ StateStatus.TooBig)) }
    ensures read { result ≢ StateStatus.Run Status.ReadFault }
    ensures words { result ≢ StateStatus.Run Status.Usage }
    ensures cause { HasWriteCause (O.faults out.old) (O.faults out.new) result }
{
    match mesh_save::save(at, out) {
        Ok(()) => StateStatus::Run(Status::Done),
        Err(SaveError::TooBig) => StateStatus::TooBig,
        Err(SaveError::WriteFault) => StateStatus::Run(Status::WriteFault),
    }
}

// Runs the schedule from its start on, and writes the checkpoint of its last state.
fn save_from<I: Source, O: Sink>(
    running: &mut Running<World>,
    input: &mut I,
    out: &mut O,
) -> StateStatus
    requires start { running.old.at ≡ opening Base }
    requires say { running.old.say ≡ Faults }
    ensures known { HasAnswered (Some Asked.Save) (I.left input.old)
        (I.left input.new) (O.held out.old) (O.held out.new) result }
    ensures end { result ≡ StateStatus.Run Status.Done → IsAtEnd (I.left input.new) }
    ensures read { HasReadCause (I.faults input.old) (I.faults input.new) result }
    ensures write { HasWriteCause (O.faults out.old) (O.faults out.new) result }
    ensures words { result ≢ StateStatus.Run Status.Usage }
{
    match do_input(running, input, out) {
        Status::Done => put_state(&running.at, out),
        status => StateStatus::Run(status),
    }
}

// As `save_from`, with a run of its own. It isn't inlined: its frame would take stack while a run
// goes on from a checkpoint.
#[inline(never)]
fn save<I: Source, O: Sink>(alloc: Global, input: &mut I, out: &mut O) -> StateStatus
    ensures known { HasAnswered (Some Asked.Save) (I.left input.old)
        (I.left input.new) (O.held out.old) (O.held out.new) result }
    ensures end { result ≡ StateStatus.Run Status.Done → IsAtEnd (I.left input.new) }
    ensures read { HasReadCause (I.faults input.old) (I.faults input.new) result }
    ensures write { HasWriteCause (O.faults out.old) (O.faults out.new) result }
    ensures words { result ≢ StateStatus.Run Status.Usage }
{
    let mut running: Running<World> = Running {
        alloc,
        at: Point::start(),
        say: Say::Faults,
    };
    save_from(&mut running, input, out)
}

// The answer for a checkpoint part that isn't loaded.
fn answer_by(why: StateError) -> StateStatus
    ensures { result ≡ answer_by why }
{
    match why {
        StateError::NoMemory => StateStatus::Run(Status::NoMemory),
        _ => StateStatus::BadState(why),
    }
}

// Does the lines of an input from a state on. It isn't inlined: its frame would take stack while
// the state is loaded.
#[inline(never)]
fn go_on<I: Source, O: Sink>(alloc: Global, at: Point<World>, input: &mut I, out: &mut O) -> Status
    requires lines { at.lines < most_lines_before_run }
    requires steps { at.steps < most_steps_before_run }
    ensures known { IfSome (I.left input.old) (λ bytes. IsOutputFrom All at bytes
        (I.left input.new) (O.held out.old) (O.held out.new) result) }
    ensures end { result ≡ Status.Done → IsAtEnd (I.left input.new) }
    ensures read { HasSourceCause (I.faults input.old) (I.faults input.new) result }
    ensures write { HasStatusCause Status.WriteFault (O.faults out.old) (O.faults out.new) result }
    ensures words { result ≢ Status.Usage }
{
    let mut running: Running<World> = Running {
        alloc,
        at,
        say: Say::All,
    };
    do_input(&mut running, input, out)
}

// Goes on from the checkpoint in the input with the lines that follow it.
#[inline(never)]
fn go<I: Source, O: Sink>(alloc: Global, input: &mut I, out: &mut O) -> StateStatus
    ensures known { HasAnswered (Some Asked.Go) (I.left input.old)
        (I.left input.new) (O.held out.old) (O.held out.new) result }
    ensures end { result ≡ StateStatus.Run Status.Done → IsAtEnd (I.left input.new) }
    ensures read { HasReadCause (I.faults input.old) (I.faults input.new) result }
    ensures write { HasWriteCause (O.faults out.old) (O.faults out.new) result }
    ensures words { result ≢ StateStatus.Run Status.Usage }
{
    let loaded = match take_checkpoint_part(alloc, input) {
        Ok(checkpoint_part) => load(alloc, &checkpoint_part),
        Err(CheckpointPartError::ReadFault) => return StateStatus::Run(Status::ReadFault),
        Err(CheckpointPartError::NoMemory) => return StateStatus::Run(Status::NoMemory),
    };
    match loaded {
        Ok(at) => StateStatus::Run(go_on(alloc, at, input, out)),
        Err(why) => answer_by(why),
    }
}

// Does what is asked.
fn answer<I: Source, O: Sink>(
    alloc: Global,
    asked: Asked,
    input: &mut I,
    out: &mut O,
) -> StateStatus
    ensures known { HasAnswered (Some asked) (I.left input.old)
        (I.left input.new) (O.held out.old) (O.held out.new) result }
    ensures end { result ≡ StateStatus.Run Status.Done → IsAtEnd (I.left input.new) }
    ensures read { HasReadCause (I.faults input.old) (I.faults input.new) result }
    ensures write { HasWriteCause (O.faults out.old) (O.faults out.new) result }
    ensures words { result ≢ StateStatus.Run Status.Usage }
{
    match asked {
        Asked::Save => save(alloc, input, out),
        Asked::Go => go(alloc, input, out),
    }
}

/// Writes the checkpoint of a run, or goes on from one.
///
/// With the one word `save`, the schedule that the source gives is run in a world of its own, in
/// which all nodes run the protocol as AWN has it. If the whole schedule is done, the checkpoint of
/// its last state is written; if a line is refused, or has an event that would raise a full
/// counter, the last line of the run's text is written instead. With the one word `go`, the source
/// gives a checkpoint and then lines: these are run from the checkpoint's state on, and their text
/// is written.
pub fn state<I: Source, O: Sink>(
    alloc: Global,
    words: &[&str],
    input: &mut I,
    out: &mut O,
) -> StateStatus
    // The words are neither the one word `save` nor the one word `go`: nothing is read or written.
    ensures usage_exactly_for_other_words { (result ≡ StateStatus.Run Status.Usage)
        ↔ (asked_of (map (λ w. w.now) words.now) ≡ None) }
    ensures untouched_by_other_words { result ≡ StateStatus.Run Status.Usage
        → (input.new ≡ input.old) × (out.new ≡ out.old) }

    // With `save` the answer is the verdict of the run; if the run is done, the checkpoint of its
    // last state is written, unless its body is too long. With `go` the answer is the first refusal
    // of the checkpoint part, and nothing is written; or the checkpoint part is the checkpoint of
    // one run state, and what is written and answered is the text and the verdict of the rest from
    // there. After a failed read with `save` nothing is written, with `go` the text of the lines
    // that were read whole, or nothing if fewer bytes were taken than the checkpoint part has;
    // after a failed write, or if memory runs out, a prefix.
    ensures known { HasAnswered (asked_of (map (λ w. w.now) words.now)) (I.left input.old)
        (I.left input.new) (O.held out.old) (O.held out.new) result }

    // If a schedule of whole lines is done, and the source gives the checkpoint of its last state
    // and then more lines, `go` doesn't refuse the checkpoint and goes on as the run of the
    // schedule followed by these lines: what is written is that run's text below the schedule's
    // lines, and the answer is its verdict, if the two together are within the limit of an input.
    ensures goes_on { HasGoneOn (asked_of (map (λ w. w.now) words.now)) (I.left input.old)
        (I.left input.new) (O.held out.old) (O.held out.new) result }

    // Done is answered only where the input was read to its end.
    ensures done_at_the_end { result ≡ StateStatus.Run Status.Done → IsAtEnd (I.left input.new) }

    // A fault is answered only where the source or the sink has failed in this call, and no other
    // answer is given where one of them has.
    ensures cause_of_read_fault { HasReadCause (I.faults input.old) (I.faults input.new) result }
    ensures cause_of_write_fault { HasWriteCause (O.faults out.old) (O.faults out.new) result }

    // If nothing is refused, no event would raise a full counter, the body to be written isn't too
    // long, and neither the source nor the sink fails, the answer is Done, unless memory runs out.
    ensures complete { HasCompleted (asked_of (map (λ w. w.now) words.now)) (I.left input.old)
        (I.faults input.old) (I.faults input.new) (O.faults out.old) (O.faults out.new) result }

    // If the checkpoint part is refused and no read has failed, a refusal is the answer, unless
    // memory runs out.
    ensures refused { HasRefused (asked_of (map (λ w. w.now) words.now)) (I.left input.old)
        (I.faults input.old) (I.faults input.new) result }
{
    // A checkpoint is that of at most one plain run state; that of a state of a run isn't refused.
    one_start();
    a_run_is_unrefused();
    match asked_of(words) {
        Some(asked) => answer(alloc, asked, input, out),
        None => StateStatus::Run(Status::Usage),
    }
}
