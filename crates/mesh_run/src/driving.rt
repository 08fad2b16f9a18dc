//! A run from its source to its sink.
ghost use Rattle.std.specs.Prelude.{◌≡◌, ◌≢◌, ◌≤◌, ◌<◌, ◌+◌, ◌*◌, ◌↔◌, true, is_some, IfSome};
ghost use Rattle.std.specs.Io.KnownBytes.{IsAtEnd};
ghost use Rattle.mesh_base.specs.Bounds.{most_lines_before_run, most_steps_before_run};
ghost use Rattle.mesh_base.specs.declared.limits.TheConstants.{LONGEST_INPUT, MOST_EVENTS};
ghost use Rattle.mesh_text.specs.Schedule.{opening};
ghost use Rattle.mesh_text.specs.Text.{text_on};
ghost use Rattle.mesh_text.specs.EveryWorld.{IsLoopFreeRun, IsAccountedRun};
ghost use Rattle.mesh_text.specs.NamedData.{IsNamedRun};
ghost use Rattle.mesh_run.specs.RunStates.{IsSafe};
ghost use Rattle.mesh_run.specs.Causes.{HasStatusCause, HasSourceCause};
ghost use Rattle.mesh_run.specs.Room.{steps_of_input_end};
ghost use Rattle.mesh_run.specs.Sums.{IsGrown};
ghost use Rattle.mesh_run.specs.Outputs.{say_by, IsOutputFrom};

use crate::point::Point;
use crate::running::Running;
use crate::say::Say;
use crate::status::Status;
use mesh_base::Variant;
use mesh_io::{Limits, SCHEDULE_CAPACITY, Sink, Source};
use mesh_shell::run as shell_run;
use mesh_world::Steps;
use std::alloc::Global;

/// Does the lines of an input as `drive` does, in a run that it only borrows, so that a large world
/// isn't moved. Whatever the answer, and whether or not the source's bytes are known, the state
/// that is left is safe. The buffer's memory is allocated first.
pub fn do_input<S: Steps, I: Source, O: Sink>(
    running: &mut Running<S>,
    input: &mut I,
    out: &mut O,
) -> Status
    requires few { running.old.at.lines < most_lines_before_run }
    requires steps { running.old.at.steps < most_steps_before_run }
    ensures known { IfSome (I.left input.old) (λ bytes.
        IsOutputFrom running.old.say running.old.at bytes
        (I.left input.new) (O.held out.old) (O.held out.new) result) }
    ensures after { result ≡ Status.Done → IfSome (I.left input.old)
        (λ bytes. running.new.at ≡ (text_on running.old.at bytes).after) }
    ensures safe { IsSafe running.new.at }
    ensures grown { result ≡ Status.Done → IsGrown running.old.at running.new.at }
    ensures lines { result ≡ Status.Done
        → running.new.at.lines ≤ running.old.at.lines + LONGEST_INPUT }
    ensures steps { result ≡ Status.Done
        → 4 * running.new.at.steps ≤ 4 * running.old.at.steps + MOST_EVENTS * LONGEST_INPUT }
    ensures end { result ≡ Status.Done → IsAtEnd (I.left input.new) }
    ensures read { HasSourceCause (I.faults input.old) (I.faults input.new) result }
    ensures write { HasStatusCause Status.WriteFault (O.faults out.old) (O.faults out.new) result }
    ensures words { result ≢ Status.Usage }
{
    let alloc = running.alloc;
    let most = Limits::of_schedule();
    let answer = shell_run::<Running<S>, I, O, SCHEDULE_CAPACITY>(alloc, running, most, input, out);
    // The contract of `world` says that the state is safe.
    let _world = running.at.world();
    Status::of(answer)
}

/// Does the lines of an input in order, from a state on, to its end or to the first line that stops
/// the run: one that isn't allowed, or that has an event that would raise a counter past its
/// field's greatest value. The state to which they led is returned exactly where the answer is
/// Done.
///
/// What is written is gathered in a buffer of 65536 bytes, and handed on when that is full, before
/// each read of the source, and at the end, unless a write has failed.
pub fn drive<S: Steps, I: Source, O: Sink>(
    alloc: Global,
    start: Point<S>,
    say: Say,
    input: &mut I,
    out: &mut O,
) -> (Status, Option<Point<S>>)
    requires lines { start.lines < most_lines_before_run }
    requires steps { start.steps < most_steps_before_run }

    // What is written is the part that `say` asks for of the text of the input, and the answer is
    // the text's verdict. After a failed write or a lack of memory, a prefix of that part is
    // written; after a failed read, what `say` asks for of the text of the lines that were read
    // whole.
    ensures known { IfSome (I.left input.old) (λ bytes. IsOutputFrom say start bytes
        (I.left input.new) (O.held out.old) (O.held out.new) result.0) }

    // The state is the one that the run came to. Its world has the invariant and no loop, and the
    // account of the data is balanced, whether or not the source's bytes are known.
    ensures point { (is_some result.1 ≡ true) ↔ (result.0 ≡ Status.Done) }
    ensures after { IfSome result.1 (λ p. IfSome (I.left input.old) (λ bytes.
        p ≡ (text_on start bytes).after)) }
    ensures safe { IfSome result.1 IsSafe }

    // An input can add at most this much.
    ensures grown { IfSome result.1 (IsGrown start) }
    ensures few_lines { IfSome result.1 (λ p. p.lines ≤ start.lines + LONGEST_INPUT) }
    ensures few_steps { IfSome result.1 (λ p. p.steps < start.steps + steps_of_input_end) }

    // Done comes only if the input was read to its end.
    ensures end { result.0 ≡ Status.Done → IsAtEnd (I.left input.new) }

    // A fault is answered only if the source or the sink has failed in this call, and no other
    // answer comes if one of them has.
    ensures read { HasSourceCause (I.faults input.old) (I.faults input.new) result.0 }
    ensures write { HasStatusCause Status.WriteFault
        (O.faults out.old) (O.faults out.new) result.0 }
    ensures words { result.0 ≢ Status.Usage }
{
    let mut running = Running {
        alloc,
        at: start,
        say,
    };
    match do_input(&mut running, input, out) {
        Status::Done => (Status::Done, Some(running.at)),
        status => (status, None),
    }
}

/// Runs the schedule that the source gives, in a world of its own where all nodes run this variant
/// of the protocol, and writes its text to the sink, line by line; a quiet run writes only the last
/// line. Even if the source's bytes aren't known, each world of the run is safe: the worlds are
/// those that `do_input` goes through.
#[inline(never)]
pub fn run<S: Steps, I: Source, O: Sink>(
    alloc: Global,
    quiet: bool,
    variant: Variant,
    input: &mut I,
    out: &mut O,
) -> Status
    // What is written is the text of the input, or only its last line if `quiet`, and the answer is
    // its verdict. After a failed write or a lack of memory, a prefix of that is written; after a
    // failed read, and unless `quiet`, the text of the lines that were read whole.
    ensures known { IfSome (I.left input.old) (λ bytes. IsOutputFrom (say_by quiet)
        (opening variant) bytes (I.left input.new) (O.held out.old) (O.held out.new) result) }

    // In no world to which the lines lead, after any number of their events, does a destination
    // have a loop; in each of these worlds every datum is accounted for; and the text has a line
    // for each time that a datum was delivered or dropped.
    ensures loop_free { IfSome (I.left input.old) (IsLoopFreeRun variant) }
    ensures accounted { IfSome (I.left input.old) (IsAccountedRun variant) }
    ensures named { IfSome (I.left input.old) (IsNamedRun variant) }

    // Done comes only if the input was read to its end.
    ensures end { result ≡ Status.Done → IsAtEnd (I.left input.new) }

    // A fault is answered only if the source or the sink has failed in this call, and no other
    // answer comes if one of them has.
    ensures read { HasSourceCause (I.faults input.old) (I.faults input.new) result }
    ensures write { HasStatusCause Status.WriteFault (O.faults out.old) (O.faults out.new) result }
    ensures words { result ≢ Status.Usage }
{
    let mut running: Running<S> = Running {
        alloc,
        at: Point::with(variant),
        say: Say::by(quiet),
    };
    do_input(&mut running, input, out)
}
