//! The world.
ghost use Rattle.std.specs.Prelude.{◌≡◌, ◌<◌, ◌≤◌, ◌↔◌, length, map, slice_get, true, Some, IfOk, IfErr, IsOk, IfSome};
ghost use Rattle.std.specs.List.{AllByRecursion};
ghost use Rattle.mesh_base.specs.Bounds.{most_steps};
ghost use Rattle.mesh_model.specs.Choices as choices;
ghost use Rattle.mesh_model.specs.Routes as routes;
ghost use Rattle.mesh_model.specs.Accounts as accounts;
ghost use Rattle.mesh_model.specs.InMesh.{IsEvent};
ghost use Rattle.mesh_radio.specs.Radios.{most_copies_at_first};
ghost use Rattle.mesh_meaning.specs.Packets.{IsWrittenCopy, IsWrittenItem, copy_in};
ghost use Rattle.mesh_meaning.specs.Events.{event_of};
ghost use Rattle.mesh_world.specs.Seen.{WorldSeen, IsSoundWorld, node_in, data_of, most_data_at_first};
ghost use Rattle.mesh_world.specs.Kept.{world_in, seen_of};
ghost use Rattle.mesh_model.specs.Accounts.{any};
ghost use Rattle.mesh_world.specs.Steps.{IsStep, IsShortOf};
ghost use Rattle.mesh_world.specs.CountsOfEvents.{answer_with, IsStepCounted};
ghost use Rattle.mesh_world.specs.Accounts.{KeepsAccount};
ghost use Rattle.mesh_world.specs.Ends.{end_in, IsEndIn};
ghost use Rattle.mesh_world.specs.Parts.{AreOpened};
ghost use Rattle.mesh_world.specs.Restored.{AreNodesOf, AreWritten, AreSoundParts, IsFirstPart, most_steps_at_first};

use crate::act::{Ask, Send, Turn};
use crate::choices::{first_ask, first_send, first_turn};
use crate::event_counts::EventCounts;
use crate::nodes::Nodes;
use crate::parts::Parts;
use crate::ready::Ready;
use crate::restored::{Part, first_unsound, ready_for};
use crate::route::{End, follow};
use crate::steps::{StepError, Steps};
use crate::totals::{Totals, count_data};
use aodv_node::Node;
use mesh_base::{Done, Event, Mesh, NoMemory, Packet, Variant};
use mesh_radio::Radio;
use std::alloc::Global;
use std::marker::Model;

/// All nodes of a mesh and the radio between them.
#[derive(Drop)]
pub struct World {
    parts: Parts,
}

impl Model for World {
    ghost use Rattle.mesh_world.specs.Seen.{WorldSeen, seen_code};
    ghost use Rattle.mesh_world.specs.Parts.{seen_in, AreKept};

    ghost Value = { WorldSeen };

    ghost coded = { seen_code };

    ghost view = { λ w. seen_in w.parts };

    ghost invariant = { λ w. AreKept w.parts };
}

impl World {
    /// The world of these parts, after this many steps, if all parts are as in a world; else the
    /// first that isn't: an item or a copy, a request, a reply, or the entry of the least node for
    /// its least destination. It is never `Part::Node`, since every node is in order by itself. The
    /// nodes are those of the mesh in order, all of this variant, and fewer than 2^60 data are in
    /// their stores, in inboxes and in flight. This takes no memory, and drops what it refuses.
    pub fn from_parts(
        mesh: &Mesh,
        variant: Variant,
        nodes: Nodes,
        radio: Radio,
        steps: u64,
    ) -> Result<World, Part>
        requires some { 1 ≤ length mesh.now }
        requires nodes { AreNodesOf mesh.now variant nodes.nodes }
        requires size { radio.size ≡ length mesh.now }
        requires next { radio.next_copy ≤ most_copies_at_first }
        requires steps { steps ≤ most_steps_at_first }
        requires few { AreWritten mesh.now nodes.nodes radio.flying
            → data_of (world_in mesh.now nodes.nodes radio) < most_data_at_first }
        ensures world { IfOk result (λ w. w ≡ seen_of mesh.now nodes.nodes radio steps) }
        ensures sound { IsOk result ↔ AreSoundParts mesh.now nodes.nodes radio.flying }
        ensures part { IfErr result (IsFirstPart mesh.now nodes.nodes radio.flying) }
    {
        let nodes = nodes.into_vec();
        if let Some(part) = first_unsound(mesh, &nodes, &radio) {
            return Err(part);
        }
        let ready = ready_for(mesh, &nodes);
        // The contracts of these calls say that the mesh's addresses rise, and that copies are
        // numbered in order and between nodes of the mesh, as links are.
        let _nodes = mesh.len();
        let _copies = radio.count();
        let parts = Parts {
            mesh: mesh.copy(),
            nodes,
            radio,
            ready,
            steps,
        };
        Ok(World { parts })
    }

    /// The mesh.
    pub fn mesh(&self) -> &Mesh
        ensures value { result.now ≡ self.now.mesh }
        ensures sound { IsSoundWorld self.now }
    {
        &self.parts.mesh
    }

    /// How many steps were taken.
    pub fn steps(&self) -> u64
        ensures { result ≡ self.now.steps }
    {
        self.parts.steps
    }

    /// Node i.
    pub fn node(&self, i: usize) -> &Node
        requires { i < length self.now.mesh }
        ensures node { slice_get self.now.world.nodes i ≡ Some (node_in self.now.mesh result.now) }
        ensures written { AllByRecursion (IsWrittenItem self.now.mesh) result.now.items }
        ensures size { result.now.size ≡ length self.now.mesh }
    {
        &self.parts.nodes[i]
    }

    /// The links and the copies in flight.
    pub fn radio(&self) -> &Radio
        ensures flying { map (copy_in self.now.mesh) result.now.flying ≡ self.now.world.flying }
        ensures written { AllByRecursion (IsWrittenCopy self.now.mesh) result.now.flying }
        ensures size { result.now.size ≡ length self.now.mesh }
        ensures links { (result.now.links ≡ self.now.world.links)
            × (result.now.ever ≡ self.now.world.ever) }
        ensures next { result.now.next_copy ≡ self.now.world.next_copy }
    {
        &self.parts.radio
    }

    /// The least node that may take a turn. No node is searched for.
    pub fn first_turn(&self) -> Option<usize>
        ensures first { result ≡ choices.first_turn self.now.world }
        ensures within { IfSome result (λ x. x < length self.now.mesh) }
    {
        first_turn(&self.parts.ready)
    }

    /// The least node that may send a datum that waits, and the least destination of such a datum.
    /// No node is searched for.
    pub fn first_send(&self) -> Option<(usize, usize)>
        ensures first { result ≡ choices.first_send self.now.world }
        ensures within { let size = length self.now.mesh in
            IfSome result (λ p. (p.0 < size) × (p.1 < size)) }
    {
        first_send(&self.parts.ready, &self.parts.nodes)
    }

    /// The least node that may ask for a route, and the least destination for which it may. No node
    /// is searched for.
    pub fn first_ask(&self) -> Option<(usize, usize)>
        ensures first { result ≡ choices.first_ask self.now.world }
        ensures within { let size = length self.now.mesh in
            IfSome result (λ p. (p.0 < size) × (p.1 < size)) }
    {
        first_ask(&self.parts.ready, &self.parts.nodes)
    }

    /// Where the route from one node to another ends.
    pub fn follow(&self, from: usize, to: usize) -> End
        requires from { from < length self.now.mesh }
        requires to { to < length self.now.mesh }
        ensures value { end_in result ≡ routes.route_end self.now.world from to }
        ensures walk { routes.IsRouteEnd self.now.world from to (end_in result) }
        ensures within { IsEndIn (length self.now.mesh) result }
    {
        follow(&self.parts.nodes, from, to)
    }

    /// How many data there are, and where. All destinations with data and all items are looked at,
    /// but no copies.
    pub fn totals(&self) -> Totals
        ensures waiting { result.waiting ≡ accounts.waiting any self.now.world }
        ensures queued { result.queued ≡ accounts.queued_data any self.now.world }
        ensures flying { result.flying ≡ accounts.in_flight any self.now.world }
    {
        count_data(&self.parts.nodes, &self.parts.radio)
    }
}

impl Steps for World {
    ghost seen = { λ w. w };

    fn with(alloc: Global, mesh: &Mesh, variant: Variant) -> Result<World, NoMemory> {
        let nodes = opening_nodes(alloc, mesh, variant)?;
        let radio = Radio::new(alloc, mesh.len())?;
        let parts = Parts {
            mesh: mesh.copy(),
            nodes,
            radio,
            ready: Ready::new(),
            steps: 0,
        };
        Ok(World { parts })
    }

    /// `NoMemory` is answered only to an event that is enabled, or would be refused for a full
    /// counter, and that changes no link.
    #[inline(always)]
    fn step(&mut self, alloc: Global, e: &Event<'_>, out: &mut Packet) -> Result<Done, StepError>
        requires event { IsEvent (length self.old.mesh) (event_of e.now) }
        requires few { self.old.steps < most_steps }
        ensures step { IsStep (event_of e.now) self.old result self.new out.new.items }
        ensures account { KeepsAccount (event_of e.now) self.old result self.new }
        ensures memory { IsShortOf self.old.world (event_of e.now) result }
        ensures sound { IsSoundWorld self.new }
    {
        let mut done = Done::Idle;
        match self.step_counted(alloc, e, out, true, &mut done) {
            Ok(_) => Ok(done),
            Err(error) => Err(error),
        }
    }

    /// `NoMemory` is answered only to an event that is enabled, or would be refused for a full
    /// counter, and that changes no link.
    #[inline(always)]
    fn step_counted(
        &mut self,
        alloc: Global,
        e: &Event<'_>,
        out: &mut Packet,
        wanted: bool,
        answer: &mut Done,
    ) -> Result<EventCounts, StepError>
        requires event { IsEvent (length self.old.mesh) (event_of e.now) }
        requires few { self.old.steps < most_steps }
        ensures counted { IsStepCounted (event_of e.now) self.old result self.new }
        ensures left { wanted ≡ true → IsStep (event_of e.now)
            self.old (answer_with result answer.new) self.new out.new.items }
        ensures account { KeepsAccount (event_of e.now) self.old result self.new }
        ensures memory { IsShortOf self.old.world (event_of e.now) result }
        ensures sound { IsSoundWorld self.new }
    {
        match *e {
            Event::Give { node, dest, body } => {
                self.parts.give(alloc, node, dest, body, wanted, answer)
            }
            Event::Turn { node } => self.parts.act(node, Turn, out, wanted, answer),
            Event::Send { node, dest } => self.parts.act(node, Send(dest), out, wanted, answer),
            Event::Ask { node, dest } => self.parts.act(node, Ask(dest), out, wanted, answer),
            Event::Link { a, b } => self.parts.link(a, b, wanted, answer),
            Event::Cut { a, b } => self.parts.cut(a, b, wanted, answer),
            Event::Deliver { id } => self.parts.deliver_copy(alloc, id, wanted, answer),
            Event::Lose { id } => self.parts.lose_copy(alloc, id, wanted, answer),
            Event::Double { id } => self.parts.double_copy(id, wanted, answer),
        }
    }

    #[inline(always)]
    fn take_copy(&mut self, id: u64, out: &mut Packet) -> Option<(usize, EventCounts)> {
        self.parts.take_copy(id, out)
    }

    fn world(&self) -> &World {
        self
    }
}

// The nodes of the mesh, each in its opening state.
fn opening_nodes(alloc: Global, mesh: &Mesh, variant: Variant) -> Result<Vec<Node>, NoMemory>
    ensures count { IfOk result (λ nodes. length nodes.items ≡ length mesh.now) }
    ensures opened { IfOk result (λ nodes. AreOpened variant mesh.now 0 nodes.items) }
{
    let count = mesh.len();
    let mut nodes = Vec::with_capacity(alloc, count)?;
    for i in 0..count {
        nodes.push(Node::with(alloc, mesh, i, variant)?)?;
    }
    Ok(nodes)
}
