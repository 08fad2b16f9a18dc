//! The top call.
ghost use Rattle.std.specs.Prelude.{◌≡◌, ◌≢◌, ◌↔◌, ◌⊎◌, map, None, IfSome};
ghost use Rattle.std.specs.Io.KnownBytes.{IsAtEnd};
ghost use Rattle.mesh_base.specs.declared.events.Variant.TheVariants.{Base};
ghost use Rattle.mesh_io.specs.Cause.{Rose};
ghost use Rattle.mesh_text.specs.Schedule.{opening};
ghost use Rattle.mesh_text.specs.Text.{text_of_input};
ghost use Rattle.mesh_text.specs.declared.verdict.Verdict.TheVariants.{Finished};
ghost use Rattle.mesh_run.specs.declared.say.Say.TheVariants.{Last};
ghost use Rattle.mesh_run.specs.Causes.{HasStatusCause, HasSourceCause};
ghost use Rattle.mesh_why.specs.Routes.{asked_of};
ghost use Rattle.mesh_why.specs.Answers.{IsAnswered};

use crate::route::{put_route, walk_at};
use crate::words::{Asked, asked_of};
use mesh_io::{Sink, Source};
use mesh_run::{Point, Running, Say, Status, do_input};
use mesh_trail::Trail;
use std::alloc::Global;

// Runs a schedule from its start on, and writes the last line of its text and the line of the
// route.
fn answer_from<I: Source, O: Sink>(
    running: &mut Running<Trail>,
    asked: Asked,
    input: &mut I,
    out: &mut O,
) -> Status
    requires start { running.old.at ≡ opening Base }
    requires say { running.old.say ≡ Last }
    ensures known { IfSome (I.left input.old) (λ bytes. IsAnswered (asked.node.0, asked.dest.0)
        bytes (I.left input.new) (O.held out.old) (O.held out.new) result) }
    ensures end { result ≡ Status.Done → IsAtEnd (I.left input.new) }
    ensures read { HasSourceCause (I.faults input.old) (I.faults input.new) result }
    ensures write { HasStatusCause Status.WriteFault (O.faults out.old) (O.faults out.new) result }
    ensures words { result ≢ Status.Usage }
{
    let status = do_input(running, input, out);
    if status != Status::Done {
        return status;
    }
    let at = &running.at;
    match put_route(at.mesh(), walk_at(at, asked), out) {
        Ok(()) => Status::Done,
        Err(_) => Status::WriteFault,
    }
}

// `answer_from` for a run of its own, from the start on.
fn answer<I: Source, O: Sink>(alloc: Global, asked: Asked, input: &mut I, out: &mut O) -> Status
    ensures known { IfSome (I.left input.old) (λ bytes. IsAnswered (asked.node.0, asked.dest.0)
        bytes (I.left input.new) (O.held out.old) (O.held out.new) result) }
    ensures end { result ≡ Status.Done → IsAtEnd (I.left input.new) }
    ensures read { HasSourceCause (I.faults input.old) (I.faults input.new) result }
    ensures write { HasStatusCause Status.WriteFault (O.faults out.old) (O.faults out.new) result }
    ensures words { result ≢ Status.Usage }
{
    let mut running: Running<Trail> = Running {
        alloc,
        at: Point::start(),
        say: Say::Last,
    };
    answer_from(&mut running, asked, input, out)
}

/// Runs the schedule that the source gives, in a world of its own in which all nodes run the
/// protocol as AWN has it, and prints an honest walk for a node's route. The words are two
/// addresses: the node's, and that of the route's destination.
///
/// The last line of the run's text is written and, if the run is finished, a line `walk H` with the
/// H + 1 addresses of the walk, from the destination to the node, or `none` if the node has no
/// valid route to the destination.
pub fn why<I: Source, O: Sink>(alloc: Global, words: &[&str], input: &mut I, out: &mut O) -> Status
    // The words aren't two addresses: nothing is read or written.
    ensures usage_exactly_for_other_words { (result ≡ Status.Usage)
        ↔ (asked_of (map (λ w. w.now) words.now) ≡ None) }
    ensures untouched_by_other_words { result ≡ Status.Usage
        → (input.new ≡ input.old) × (out.new ≡ out.old) }

    // What is written is the last line of the text of the input and, if the run is finished, an
    // honest walk with the hops of the valid route, or `none` exactly where there is no such
    // route. The answer is the run's verdict. If a write fails or memory runs out, a prefix of
    // that is written; if a read fails, nothing.
    ensures last_line_and_honest_walk { IfSome (asked_of (map (λ w. w.now) words.now)) (λ asked.
        IfSome (I.left input.old) (λ bytes. IsAnswered asked bytes
        (I.left input.new) (O.held out.old) (O.held out.new) result)) }

    // The answer is `Done` only if the input was read to its end.
    ensures done_at_the_end { result ≡ Status.Done → IsAtEnd (I.left input.new) }

    // A fault is answered only if the source or the sink has failed in this call, and no other
    // answer is given if one of them has.
    ensures cause_of_read_fault { HasSourceCause (I.faults input.old) (I.faults input.new) result }
    ensures cause_of_write_fault { HasStatusCause Status.WriteFault
        (O.faults out.old) (O.faults out.new) result }

    // If the verdict is `Finished` and nothing has failed, the answer is `Done`, unless memory runs
    // out.
    ensures complete { IfSome (asked_of (map (λ w. w.now) words.now)) (λ asked.
        IfSome (I.left input.old) (λ bytes. (text_of_input Base bytes).verdict ≡ Finished
        → (Rose (I.faults input.old) (I.faults input.new) → ⊥)
        → (Rose (O.faults out.old) (O.faults out.new) → ⊥)
        → (result ≡ Status.Done) ⊎ (result ≡ Status.NoMemory))) }
{
    match asked_of(words) {
        Some(asked) => answer(alloc, asked, input, out),
        None => Status::Usage,
    }
}
