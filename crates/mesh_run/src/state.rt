//! The state of a run between two events: its variant of the protocol and its mesh, its world, what
//! was counted, how many lines were read, and how many events the world has gone through.
ghost use Rattle.std.specs.Prelude.{◌≡◌, ◌<◌, ◌≤◌, ◌+◌, length, is_some, option_map, true, false, Some, None, IfOk, OnOk, OnErr, IfErr, IfSome, IsOk};
ghost use Rattle.mesh_base.specs.Bounds.{most_lines, most_steps};
ghost use Rattle.mesh_base.specs.declared.limits.TheConstants.{MOST_NODES};
ghost use Rattle.mesh_base.specs.Meshes.{IsMesh, with_node};
ghost use Rattle.mesh_model.specs.Worlds.{Deliver};
ghost use Rattle.mesh_model.specs.Choices.{pick};
ghost use Rattle.mesh_model.specs.InMesh.{IsEvent};
ghost use Rattle.mesh_model.specs.Accounts.{any, waiting, queued_data, in_flight};
ghost use Rattle.mesh_meaning.specs.Events.{event_of};
ghost use Rattle.mesh_text.specs.Schedule as model;
ghost use Rattle.mesh_text.specs.Ranges.{IsNewNode};
ghost use Rattle.mesh_script.specs.Seen.{accepted_of, IsAllowed};
ghost use Rattle.mesh_run.specs.RunStates.{with_run_begun, run_state_seen, AreOfVariant, IsAnswer, IsAnswered, IsRefusal, IsSafe, IsSound, IsTakenAtOnce};

use crate::sums::count;
use mesh_base::{Addr, Done, Event, Mesh, NoMemory, Packet, Variant};
use mesh_report::{Summary, Sums};
use mesh_script::Line;
use mesh_world::{EventCounts, StepError, Steps, Totals, event_counts_of};
use std::alloc::Global;
use std::marker::Model;

/// The state of a run. A contract sees its variant of the protocol, its mesh, its world or none,
/// its sums, its number of lines, and its number of steps, which is 0 if there is no world.
#[derive(Drop)]
pub struct State<S: Steps> {
    variant: Variant,
    mesh: Mesh,
    world: Option<S>,
    sums: Sums,
    lines: u64,
}

impl<S: Steps> Model for State<S> {
    ghost use Rattle.std.specs.Prelude.{option_map};
    ghost use Rattle.mesh_text.specs.Schedule.{RunState};
    ghost use Rattle.mesh_report.specs.Sums.{sums_of, sums_in};
    ghost use Rattle.mesh_run.specs.RunStates.{run_state_code, run_state_seen, IsSound};

    ghost Value = { RunState };

    ghost coded = { run_state_code };

    ghost view = { λ p.
        run_state_seen p.variant p.mesh (option_map S.seen p.world) (sums_of p.sums) p.lines };

    ghost invariant = { λ p. IsSound
        (run_state_seen p.variant p.mesh (option_map S.seen p.world) (sums_of p.sums) p.lines)
        (option_map S.seen p.world) };
}

impl<S: Steps> State<S> {
    ghost use Rattle.mesh_report.specs.Sums.{sums_of, sums_in};

    /// The state before the first line, where all nodes run this variant of the protocol.
    pub fn with(variant: Variant) -> State<S>
        ensures { result ≡ model.opening variant }
    {
        State {
            variant,
            mesh: Mesh::new(),
            world: None,
            sums: Sums::new(),
            lines: 0,
        }
    }

    /// The state of these parts.
    pub fn of_parts(
        variant: Variant,
        mesh: Mesh,
        world: Option<S>,
        sums: Sums,
        lines: u64,
    ) -> State<S>
        requires { let seen = option_map S.seen world in
            IsSound (run_state_seen variant mesh seen (sums_of sums) lines) seen }
        ensures { let seen = option_map S.seen world in
            result ≡ run_state_seen variant mesh seen (sums_of sums) lines }
    {
        State {
            variant,
            mesh,
            world,
            sums,
            lines,
        }
    }

    /// Which variant of the protocol all nodes run.
    pub fn variant(&self) -> Variant
        ensures { result ≡ self.now.variant }
    {
        self.variant
    }

    /// The mesh so far.
    pub fn mesh(&self) -> &Mesh
        ensures value { result.now ≡ self.now.mesh }
        ensures is_mesh { IsMesh self.now.mesh }
    {
        &self.mesh
    }

    /// Whether the run has started: there is a world.
    pub fn started(&self) -> bool
        ensures value { result ≡ is_some self.now.world }
        ensures sized { length (model.world_of self.now).nodes ≤ MOST_NODES }
    {
        self.world.is_some()
    }

    /// What was counted.
    pub fn sums(&self) -> Sums
        ensures { sums_of result ≡ self.now.sums }
    {
        self.sums
    }

    /// How many lines were read.
    pub fn lines(&self) -> u64
        ensures { result ≡ self.now.lines }
    {
        self.lines
    }

    /// The world, if one was made. It has the invariant, and no destination's valid routes have a
    /// loop.
    pub fn world(&self) -> Option<&S>
        ensures safe { IsSafe self.now }
        ensures variant { IfSome self.now.world (AreOfVariant self.now.variant) }
        ensures some { is_some result ≡ is_some self.now.world }
        ensures world { IfSome result (λ s. (S.seen s.now).world ≡ model.world_of self.now) }
        ensures mesh { IfSome result (λ s. (S.seen s.now).mesh ≡ self.now.mesh) }
        ensures steps { IfSome result (λ s. (S.seen s.now).steps ≡ self.now.steps) }
    {
        self.world.as_ref()
    }

    /// What is written at the end of the run.
    pub fn summary(&self) -> Summary
        ensures safe { IsSafe self.now }
        ensures sums { sums_in result ≡ self.now.sums }
        ensures waiting { result.waiting ≡ waiting any (model.world_of self.now) }
        ensures queued { result.queued ≡ queued_data any (model.world_of self.now) }
        ensures flying { result.flying ≡ in_flight any (model.world_of self.now) }
    {
        let totals = self.totals();
        let sums = self.sums;
        Summary {
            events: sums.events,
            idle: sums.idle,
            given: sums.given,
            delivered: sums.delivered,
            waiting: totals.waiting,
            queued: totals.queued,
            flying: totals.flying,
            lost: sums.lost,
            copied: sums.copied,
        }
    }

    // The data of the world; before the run has started there are none.
    fn totals(&self) -> Totals
        ensures waiting { result.waiting ≡ waiting any (model.world_of self.now) }
        ensures queued { result.queued ≡ queued_data any (model.world_of self.now) }
        ensures flying { result.flying ≡ in_flight any (model.world_of self.now) }
    {
        match self.world() {
            Some(world) => world.world().totals(),
            None => Totals {
                waiting: 0,
                queued: 0,
                flying: 0,
            },
        }
    }

    /// Counts a line.
    pub fn count_line(&mut self)
        requires { self.old.lines < most_lines }
        ensures { self.new ≡ model.with_line_read self.old }
    {
        self.lines += 1;
    }

    /// Adds a node.
    pub fn add_node(&mut self, a: Addr, first: u32)
        requires before { self.old.world ≡ None }
        requires new { IsNewNode self.old.mesh a.0 first }
        ensures { self.new ≡ record self.old { mesh = with_node self.old.mesh a.0 first } }
    {
        if self.mesh.add(a, first).is_err() {
            unreachable!();
        }
    }

    /// Does one event in the world that was made, and counts it.
    #[inline(always)]
    pub fn step_made(
        &mut self,
        alloc: Global,
        e: &Event<'_>,
        out: &mut Packet,
    ) -> Result<Done, StepError>
        requires made { is_some self.old.world ≡ true }
        requires event { IsEvent (length self.old.mesh) (event_of e.now) }
        requires few { self.old.steps < most_steps }
        ensures done { IfOk result (λ done.
            IsAnswer self.old (event_of e.now) done self.new out.new.items) }
        ensures refused { IfErr result (IsRefusal self.old (event_of e.now)) }
        ensures same { OnErr result (self.new ≡ self.old) }
        ensures safe { IsSafe self.new }
    {
        let Some(world) = &mut self.world else {
            unreachable!();
        };
        let answer = world.step(alloc, e, out);
        if let Ok(done) = &answer {
            count(&mut self.sums, e, event_counts_of(done));
        }
        answer
    }

    /// As `step_made`, but what came of the event is left in `answer` if it is wanted; otherwise
    /// `answer` may hold any answer.
    #[inline(always)]
    pub fn step_counted(
        &mut self,
        alloc: Global,
        e: &Event<'_>,
        out: &mut Packet,
        wanted: bool,
        answer: &mut Done,
    ) -> Result<(), StepError>
        requires made { is_some self.old.world ≡ true }
        requires event { IsEvent (length self.old.mesh) (event_of e.now) }
        requires few { self.old.steps < most_steps }
        ensures done { OnOk result (IsAnswered self.old (event_of e.now) self.new) }
        ensures left { wanted ≡ true → OnOk result
            (IsAnswer self.old (event_of e.now) answer.new self.new out.new.items) }
        ensures refused { IfErr result (IsRefusal self.old (event_of e.now)) }
        ensures same { OnErr result (self.new ≡ self.old) }
        ensures safe { IsSafe self.new }
    {
        let Some(world) = &mut self.world else {
            unreachable!();
        };
        match world.step_counted(alloc, e, out, wanted, answer) {
            Ok(event_counts) => {
                count(&mut self.sums, e, event_counts);
                Ok(())
            }
            Err(refusal) => Err(refusal),
        }
    }

    /// Does two events together: the delivery of this copy, which is the event to be chosen, and
    /// the turn of its receiver, which has to be the event to be chosen then. Both are counted. If
    /// the answer is false, for whatever reason, nothing is changed.
    #[inline(always)]
    pub fn take_copy(&mut self, id: u64, out: &mut Packet) -> bool
        requires made { is_some self.old.world ≡ true }
        requires few { self.old.steps + 1 < most_steps }
        requires chosen { pick (model.world_of self.old) ≡ Some (Deliver id) }
        ensures taken { result ≡ true → IsTakenAtOnce self.old id self.new }
        ensures same { result ≡ false → self.new ≡ self.old }
        ensures safe { IsSafe self.new }
    {
        let Some(world) = &mut self.world else {
            unreachable!();
        };
        let Some((to, event_counts)) = world.take_copy(id, out) else {
            return false;
        };
        count(&mut self.sums, &Event::Deliver { id }, EventCounts::Moved);
        count(&mut self.sums, &Event::Turn { node: to }, event_counts);
        true
    }

    /// Makes the opening world and does the first event in it. The world is kept only if the event
    /// was done.
    #[cold]
    pub fn first_step(
        &mut self,
        alloc: Global,
        e: &Event<'_>,
        out: &mut Packet,
    ) -> Result<Done, StepError>
        requires before { self.old.world ≡ None }
        requires some { 1 ≤ length self.old.mesh }
        requires event { IsEvent (length self.old.mesh) (event_of e.now) }
        ensures done { IfOk result (λ done.
            IsAnswer self.old (event_of e.now) done self.new out.new.items) }
        ensures refused { IfErr result (IsRefusal self.old (event_of e.now)) }
        ensures same { OnErr result (self.new ≡ self.old) }
        ensures safe { IsSafe self.new }
    {
        let mut world = S::with(alloc, &self.mesh, self.variant)?;
        match world.step(alloc, e, out) {
            Ok(done) => {
                count(&mut self.sums, e, event_counts_of(&done));
                self.world = Some(world);
                Ok(done)
            }
            Err(error) => Err(error),
        }
    }

    /// Makes the opening world if the line is neither blank nor a `node` line and the run hasn't
    /// started. An `Err` changes nothing, and never comes once the run has started.
    pub fn begin(&mut self, alloc: Global, line: &Line<'_>) -> Result<(), NoMemory>
        requires { IsAllowed self.old.mesh (is_some self.old.world) line.now }
        ensures there { is_some self.old.world ≡ true → IsOk result }
        ensures ok { OnOk result (self.new ≡ with_run_begun self.old (accepted_of line.now)) }
        ensures err { OnErr result (self.new ≡ self.old) }
    {
        match line {
            Line::Blank => Ok(()),
            Line::Node { .. } => Ok(()),
            _ => self.make_world(alloc),
        }
    }

    /// Makes the opening world, unless the run has started. An `Err` changes nothing, and never
    /// comes once the run has started.
    pub fn make_world(&mut self, alloc: Global) -> Result<(), NoMemory>
        requires { 1 ≤ length self.old.mesh }
        ensures there { is_some self.old.world ≡ true → IsOk result }
        ensures ok { OnOk result (self.new ≡ model.with_world self.old) }
        ensures err { OnErr result (self.new ≡ self.old) }
    {
        if self.started() {
            return Ok(());
        }
        self.open(alloc)
    }

    // Makes the opening world. It isn't inlined, so that no other line pays for its frame.
    #[cold]
    #[inline(never)]
    fn open(&mut self, alloc: Global) -> Result<(), NoMemory>
        requires some { 1 ≤ length self.old.mesh }
        requires before { self.old.world ≡ None }
        ensures ok { OnOk result (self.new ≡ model.with_world self.old) }
        ensures err { OnErr result (self.new ≡ self.old) }
    {
        let world = S::with(alloc, &self.mesh, self.variant)?;
        self.world = Some(world);
        Ok(())
    }
}
