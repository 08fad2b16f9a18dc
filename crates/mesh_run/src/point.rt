//! A state of a run that can be held, looked at and gone on from.
ghost use Rattle.std.specs.Prelude.{◌≡◌, ◌<◌, ◌≤◌, length, is_some, IfOk, OnOk, OnErr, IfErr, IfSome, IsOk, true};
ghost use Rattle.mesh_base.specs.Bounds.{most_lines, most_steps};
ghost use Rattle.mesh_base.specs.declared.events.Variant.TheVariants.{Base};
ghost use Rattle.mesh_base.specs.Meshes.{IsMesh};
ghost use Rattle.mesh_model.specs.InMesh.{IsEvent};
ghost use Rattle.mesh_meaning.specs.Events.{event_of};
ghost use Rattle.mesh_text.specs.Schedule as model;
ghost use Rattle.mesh_run.specs.RunStates.{AreOfVariant, IsAnswer, IsRefusal, IsSafe};

use crate::state::State;
use arrayvec::ArrayVec;
use mesh_base::{Done, Event, Mesh, NoMemory, Packet, Variant};
use mesh_report::Sums;
use mesh_world::{StepError, Steps};
use std::alloc::Global;
use std::marker::Model;

/// A state of a run. A contract sees its variant of the protocol, its mesh, its world or none, its
/// sums, its number of lines, and its number of steps, which is 0 if there is no world.
///
/// It owns the packet that is cast and the answer that is reported, one of each for a whole run.
/// They are public, since a run borrows them and the state at the same time; no contract sees them.
#[derive(Drop)]
pub struct Point<S: Steps> {
    pub state: State<S>,
    pub packet: Packet,
    pub done: Done,
}

impl<S: Steps> Model for Point<S> {
    ghost use Rattle.mesh_text.specs.Schedule.{RunState};
    ghost use Rattle.mesh_run.specs.RunStates.{run_state_code};

    ghost Value = { RunState };

    ghost coded = { run_state_code };

    ghost view = { λ p. p.state };
}

impl<S: Steps> Point<S> {
    ghost use Rattle.mesh_report.specs.Sums.{sums_of};

    /// The state before the first line, where all nodes run the protocol as AWN has it.
    pub fn start() -> Point<S>
        ensures { result ≡ model.opening Base }
    {
        Point::with(Variant::Base)
    }

    /// The state before the first line, where all nodes run this variant of the protocol.
    pub fn with(variant: Variant) -> Point<S>
        ensures { result ≡ model.opening variant }
    {
        Point {
            state: State::with(variant),
            packet: ArrayVec::new(),
            done: Done::Idle,
        }
    }

    /// Which variant of the protocol all nodes run.
    pub fn variant(&self) -> Variant
        ensures { result ≡ self.now.variant }
    {
        self.state.variant()
    }

    /// The mesh so far.
    pub fn mesh(&self) -> &Mesh
        ensures value { result.now ≡ self.now.mesh }
        ensures is_mesh { IsMesh self.now.mesh }
    {
        self.state.mesh()
    }

    /// What was counted.
    pub fn sums(&self) -> Sums
        ensures { sums_of result ≡ self.now.sums }
    {
        self.state.sums()
    }

    /// How many lines were read.
    pub fn lines(&self) -> u64
        ensures { result ≡ self.now.lines }
    {
        self.state.lines()
    }

    /// Counts a line that was done by other calls than `one`.
    pub fn count_line(&mut self)
        requires { self.old.lines < most_lines }
        ensures { self.new ≡ model.with_line_read self.old }
    {
        self.state.count_line();
    }

    /// The world: none until an accepted line that is neither blank nor a `node` line, `begin` or
    /// `step` has made it. It has the invariant, and no destination's valid routes have a loop. Its
    /// nodes run the state's variant.
    pub fn world(&self) -> Option<&S>
        ensures safe { IsSafe self.now }
        ensures variant { IfSome self.now.world (AreOfVariant self.now.variant) }
        ensures some { is_some result ≡ is_some self.now.world }
        ensures world { IfSome result (λ s. (S.seen s.now).world ≡ model.world_of self.now) }
        ensures mesh { IfSome result (λ s. (S.seen s.now).mesh ≡ self.now.mesh) }
        ensures steps { IfSome result (λ s. (S.seen s.now).steps ≡ self.now.steps) }
    {
        self.state.world()
    }

    /// Makes the opening world, unless there is a world. An `Err` changes nothing, and never comes
    /// if there is a world.
    pub fn begin(&mut self, alloc: Global) -> Result<(), NoMemory>
        requires { 1 ≤ length self.old.mesh }
        ensures there { is_some self.old.world ≡ true → IsOk result }
        ensures ok { OnOk result (self.new ≡ model.with_world self.old) }
        ensures err { OnErr result (self.new ≡ self.old) }
    {
        self.state.make_world(alloc)
    }

    /// Does one event, in the opening world if there is none yet, and counts it. The packet that is
    /// cast is left in `out`. A refusal leaves the state as it was: if there was no world, there
    /// still is none. Full comes only where the event would raise a counter past its field's
    /// greatest value.
    pub fn step(
        &mut self,
        alloc: Global,
        e: &Event<'_>,
        out: &mut Packet,
    ) -> Result<Done, StepError>
        requires some { 1 ≤ length self.old.mesh }
        requires event { IsEvent (length self.old.mesh) (event_of e.now) }
        requires few { self.old.steps < most_steps }
        ensures done { IfOk result (λ done.
            IsAnswer self.old (event_of e.now) done self.new out.new.items) }
        ensures refused { IfErr result (IsRefusal self.old (event_of e.now)) }
        ensures same { OnErr result (self.new ≡ self.old) }
        ensures safe { IsSafe self.new }
    {
        if self.state.started() {
            self.state.step_made(alloc, e, out)
        } else {
            self.state.first_step(alloc, e, out)
        }
    }
}
