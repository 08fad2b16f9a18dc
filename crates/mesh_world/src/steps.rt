//! How a world takes steps.
ghost use Rattle.std.specs.Prelude.{◌≡◌, ◌≤◌, ◌<◌, ◌+◌, length, true, None, IfOk, IfSome};
ghost use Rattle.mesh_base.specs.Bounds.{most_steps};
ghost use Rattle.mesh_base.specs.declared.events.Variant.TheVariants.{Base};
ghost use Rattle.mesh_model.specs.Choices.{first_turn};
ghost use Rattle.mesh_model.specs.InMesh.{IsEvent};
ghost use Rattle.mesh_meaning.specs.Events.{event_of};
ghost use Rattle.mesh_world.specs.Seen.{WorldSeen, opening, IsSoundWorld};
ghost use Rattle.mesh_world.specs.Steps.{IsStep};
ghost use Rattle.mesh_world.specs.CountsOfEvents.{answer_with, IsStepCounted};
ghost use Rattle.mesh_world.specs.Accounts.{KeepsAccount};
ghost use Rattle.mesh_world.specs.AtOnce.{IsTakenAtOnce};

use crate::event_counts::{EventCounts, tell_answer};
use crate::world::World;
use mesh_base::{Done, Event, Full, Mesh, NoMemory, Packet, Variant};
use std::alloc::Global;
use thiserror::Error;

/// Why an event wasn't done. The world is then as it was.
#[derive(Clone, Copy, Debug, PartialEq, Eq, Error)]
pub enum StepError {
    /// The node's step would raise this counter past its field's greatest value.
    #[error("a counter is full")]
    Full { node: usize, field: Full },
    /// There was not enough memory.
    #[error("no memory")]
    NoMemory,
}

impl From<NoMemory> for StepError {
    ghost use Rattle.std.specs.Prelude.{◌≡◌};
    ghost use Rattle.mesh_world.specs.declared.steps.StepError.TheVariants as errors;

    ghost from_gives = { λ n e. e ≡ errors.NoMemory };

    fn from(_: NoMemory) -> StepError {
        StepError::NoMemory
    }
}

/// A world that takes steps, whatever else is kept with it.
pub trait Steps: Drop {
    /// The world.
    ghost seen: { Self → WorldSeen };

    /// The opening world, in which all nodes run this variant of the protocol: each node has its
    /// first sequence number and nothing else, no link stands, and no copy is in flight.
    fn with(alloc: Global, mesh: &Mesh, variant: Variant) -> Result<Self, NoMemory>
        requires { 1 ≤ length mesh.now }
        ensures { IfOk result (λ world. seen world ≡ opening variant mesh.now) };

    /// The opening world of the protocol as AWN has it.
    fn new(alloc: Global, mesh: &Mesh) -> Result<Self, NoMemory>
        requires { 1 ≤ length mesh.now }
        ensures { IfOk result (λ world. seen world ≡ opening Base mesh.now) }
    {
        Self::with(alloc, mesh, Variant::Base)
    }

    /// Does one event. All memory is taken before the first change. The packet that is cast is left
    /// in `out`. Each datum that was in the world, or was given or doubled, is in the world
    /// afterwards, or was delivered or dropped. A world takes at most 2^48 steps, which is more
    /// than any schedule asks for.
    fn step(&mut self, alloc: Global, e: &Event<'_>, out: &mut Packet) -> Result<Done, StepError>
        requires event { IsEvent (length (seen self.old).mesh) (event_of e.now) }
        requires few { (seen self.old).steps < most_steps }
        ensures step { let event = event_of e.now in
            IsStep event (seen self.old) result (seen self.new) out.new.items }
        ensures account { KeepsAccount (event_of e.now) (seen self.old) result (seen self.new) }
        ensures sound { IsSoundWorld (seen self.new) };

    /// Does one event, as `step` does, and answers what is counted of it. If `wanted`, what came of
    /// the event is left in `answer`; else `answer` may hold any answer.
    fn step_counted(
        &mut self,
        alloc: Global,
        e: &Event<'_>,
        out: &mut Packet,
        wanted: bool,
        answer: &mut Done,
    ) -> Result<EventCounts, StepError>
        requires event { IsEvent (length (seen self.old).mesh) (event_of e.now) }
        requires few { (seen self.old).steps < most_steps }
        ensures counted { IsStepCounted (event_of e.now) (seen self.old) result (seen self.new) }
        ensures left { let event = event_of e.now in wanted ≡ true → IsStep event
            (seen self.old) (answer_with result answer.new) (seen self.new) out.new.items }
        ensures account { KeepsAccount (event_of e.now) (seen self.old) result (seen self.new) }
        ensures sound { IsSoundWorld (seen self.new) }
    {
        let given = self.step(alloc, e, out);
        tell_answer(wanted, answer, given)
    }

    /// Does two events as one, when no node may take a turn: the copy of this id is delivered, and
    /// its receiver takes it. The answer is the receiver, and what is counted of its turn. None if
    /// this isn't done, whatever the cause is: the world is as it was, and the events are left to
    /// `step`, which says why one is refused. Afterwards `out` may hold any packet.
    fn take_copy(&mut self, id: u64, out: &mut Packet) -> Option<(usize, EventCounts)>
        requires few { (seen self.old).steps + 1 < most_steps }
        requires idle { first_turn (seen self.old).world ≡ None }
        ensures taken { IfSome result (λ p.
            IsTakenAtOnce id (seen self.old) p.0 p.1 (seen self.new)) }
        ensures none { result ≡ None → seen self.new ≡ seen self.old }
    {
        None
    }

    /// The world itself.
    fn world(&self) -> &World
        ensures { result.now ≡ seen self.now };
}
