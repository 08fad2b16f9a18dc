//! What is counted of an event.
ghost use Rattle.std.specs.Prelude.{◌≡◌, ℕ, List, true, Ok, IsOk};
ghost use Rattle.mesh_base.specs.Meshes.{Nodes};
ghost use Rattle.mesh_base.specs.declared.events.Air.{Air};
ghost use Rattle.mesh_base.specs.declared.events.Done.TheVariants as done;
ghost use Rattle.mesh_base.specs.declared.events.Took.TheVariants as takes;
ghost use Rattle.mesh_model.specs.Worlds.{World, Event as an_event, step};
ghost use Rattle.mesh_model.specs.Accounts.{any, delivered_data, dropped_data, in_taken, in_dropped};
ghost use Rattle.mesh_meaning.specs.Answers.{outcome_in, took_in, IsDoneInMesh, IsTookInMesh};
ghost use Rattle.mesh_world.specs.Seen.{WorldSeen};
ghost use Rattle.mesh_world.specs.Steps.{IsStep};
ghost use Rattle.mesh_world.specs.CountsOfEvents.{count_of, answer_with, AreEventCountsOf, HasEventCounts, IsStepCounted};
ghost use Rattle.mesh_world.specs.Accounts.{KeepsAccount};

use crate::steps::StepError;
use aodv_wire::is_data;
use mesh_base::{Done, Effect, Kind, Took};

/// What is counted of an event that was done.
#[derive(Clone, Copy)]
pub enum EventCounts {
    /// It wasn't enabled.
    Idle,
    /// A datum was given, or a link changed.
    Changed,
    /// A node took an item. Whether a datum was delivered, and whether one was dropped.
    Taken { delivered: bool, dropped: bool },
    /// A copy was lost. Whether it was of a data packet.
    Lost { parcel: bool },
    /// A copy was doubled. Whether it was of a data packet.
    Doubled { parcel: bool },
    /// A packet was sent, or a copy came to its receiver: nothing but the event is counted.
    Moved,
}

// Whether what was taken is a datum of the node's own, or a data packet.
fn is_own_or_data(took: &Took) -> bool
    ensures { (mesh : Nodes) (x : ℕ) → IsTookInMesh mesh took.now
        → in_taken any x (took_in mesh took.now) ≡ count_of result }
{
    match took {
        Took::Own { .. } => true,
        Took::Stored { .. } => false,
        Took::Heard { kind, .. } => *kind == Kind::Data,
    }
}

// Whether what was taken is a data packet.
fn is_heard_data(took: &Took) -> bool
    ensures { (mesh : Nodes) → IsTookInMesh mesh took.now
        → in_dropped any (took_in mesh took.now) ≡ count_of result }
{
    match took {
        Took::Own { .. } => false,
        Took::Stored { .. } => false,
        Took::Heard { kind, .. } => *kind == Kind::Data,
    }
}

// Whether a datum was delivered. Only a turn delivers.
fn delivers(done: &Done) -> bool
    ensures { (mesh : Nodes) (x : ℕ) (old new : World) (packet : List ℕ) (e : an_event)
        → IsDoneInMesh mesh done.now packet
        → step old e ≡ outcome_in mesh x new done.now packet
        → delivered_data any e (step old e) ≡ count_of result }
{
    match done {
        Done::Taken { took, effect, .. } => effect.deliver && is_own_or_data(took),
        Done::Idle => false,
        Done::Changed => false,
        Done::Sent { .. } => false,
        Done::Heard { .. } => false,
        Done::Lost { .. } => false,
        Done::Doubled { .. } => false,
    }
}

// Whether a datum was dropped, by a turn or with a lost copy.
#[tactic(auto, using(crate::proofs::Counts::packet_counts))]
fn drops(done: &Done) -> bool
    ensures { (mesh : Nodes) (x : ℕ) (w : World) (packet : List ℕ) (e : an_event)
        → IsDoneInMesh mesh done.now packet
        → dropped_data any e (outcome_in mesh x w done.now packet) ≡ count_of result }
{
    match done {
        Done::Taken { took, effect, .. } => effect.lost && is_heard_data(took),
        Done::Lost { flying } => is_data(flying.bytes.as_slice()),
        Done::Idle => false,
        Done::Changed => false,
        Done::Sent { .. } => false,
        Done::Heard { .. } => false,
        Done::Doubled { .. } => false,
    }
}

// Whether a packet of this kind, which was heard and taken, carries a datum.
fn has_datum(kind: Kind) -> bool
    ensures taken { (mesh : Nodes) (x from : ℕ) (bytes : List ℕ)
        → IsTookInMesh mesh (takes.Heard from kind bytes)
        → in_taken any x (took_in mesh (takes.Heard from kind bytes)) ≡ count_of result }
    ensures dropped { (mesh : Nodes) (from : ℕ) (bytes : List ℕ)
        → IsTookInMesh mesh (takes.Heard from kind bytes)
        → in_dropped any (took_in mesh (takes.Heard from kind bytes)) ≡ count_of result }
{
    kind == Kind::Data
}

// Whether a datum was delivered when a packet of this kind was heard and taken.
fn delivers_heard(kind: Kind, effect: &Effect) -> bool
    ensures { (from : ℕ) (bytes : List ℕ) (air : Air) (mesh : Nodes) (x : ℕ) (old new : World)
        (packet : List ℕ) (e : an_event)
        → IsDoneInMesh mesh (done.Taken (takes.Heard from kind bytes) effect.now air) packet
        → step old e ≡ outcome_in mesh x new
        (done.Taken (takes.Heard from kind bytes) effect.now air) packet
        → delivered_data any e (step old e) ≡ count_of result }
{
    effect.deliver && has_datum(kind)
}

// Whether a datum was dropped when a packet of this kind was heard and taken.
fn drops_heard(kind: Kind, effect: &Effect) -> bool
    ensures { (from : ℕ) (bytes : List ℕ) (air : Air) (mesh : Nodes) (x : ℕ) (w : World)
        (packet : List ℕ) (e : an_event)
        → IsDoneInMesh mesh (done.Taken (takes.Heard from kind bytes) effect.now air) packet
        → dropped_data any e (outcome_in mesh x w
        (done.Taken (takes.Heard from kind bytes) effect.now air) packet) ≡ count_of result }
{
    effect.lost && has_datum(kind)
}

/// What is counted of a turn that took a packet of this kind.
pub(crate) fn counts_of_heard(kind: Kind, effect: &Effect) -> EventCounts
    ensures { (from : ℕ) (bytes : List ℕ) (air : Air)
        → AreEventCountsOf (done.Taken (takes.Heard from kind bytes) effect.now air) result }
{
    EventCounts::Taken {
        delivered: delivers_heard(kind, effect),
        dropped: drops_heard(kind, effect),
    }
}

/// What is counted of an answer.
pub fn event_counts_of(done: &Done) -> EventCounts
    ensures { AreEventCountsOf done.now result }
{
    match done {
        Done::Idle => EventCounts::Idle,
        Done::Changed => EventCounts::Changed,
        Done::Taken { .. } => EventCounts::Taken {
            delivered: delivers(done),
            dropped: drops(done),
        },
        Done::Sent { .. } => EventCounts::Moved,
        Done::Heard { .. } => EventCounts::Moved,
        Done::Lost { .. } => EventCounts::Lost {
            parcel: drops(done),
        },
        Done::Doubled { parcel, .. } => EventCounts::Doubled { parcel: *parcel },
    }
}

/// Returns what is counted of an event that was done, and leaves what came of it in `answer` if
/// that is wanted. It is inlined into each function that does an event, so that no answer is put
/// together unless it is wanted.
#[inline(always)]
pub(crate) fn tell(wanted: bool, answer: &mut Done, done: Done) -> Result<EventCounts, StepError>
    ensures event_counts { HasEventCounts (Ok done) result }
    ensures left { wanted ≡ true → answer_with result answer.new ≡ Ok done }
    ensures ok { IsOk result }
{
    let event_counts = event_counts_of(&done);
    if wanted {
        *answer = done;
    }
    Ok(event_counts)
}

/// `tell` for an answer that is given, or for a refusal.
pub(crate) fn tell_answer(
    wanted: bool,
    answer: &mut Done,
    given: Result<Done, StepError>,
) -> Result<EventCounts, StepError>
    ensures counted { (e : an_event) (old new : WorldSeen) (packet : List ℕ)
        → IsStep e old given new packet → IsStepCounted e old result new }
    ensures account { (e : an_event) (old new : WorldSeen)
        → KeepsAccount e old given new → KeepsAccount e old result new }
    ensures left { wanted ≡ true → answer_with result answer.new ≡ given }
{
    match given {
        Ok(done) => tell(wanted, answer, done),
        Err(error) => Err(error),
    }
}
