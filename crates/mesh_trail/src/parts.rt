//! The parts of a trail, and each event as it is done to them. All memory is taken before the world
//! takes its step; then the lists follow it.
ghost use Rattle.std.specs.Prelude.{◌≡◌, ◌<◌, ℕ, List, length, OnOk};
ghost use Rattle.std.specs.Vec.{vec_len, vec_capacity};
ghost use Rattle.mesh_base.specs.declared.events.Done.{Done};
ghost use Rattle.mesh_model.specs.Worlds as model;
ghost use Rattle.mesh_model.specs.InMesh.{IsEvent};
ghost use Rattle.mesh_meaning.specs.Events.{event_of};
ghost use Rattle.mesh_trail.specs.Walks.{FillsNumber};
ghost use Rattle.mesh_trail.specs.Heard.{IsFrontIn};
ghost use Rattle.mesh_trail.specs.Steps.{IsOwnOf, idles, hears};
ghost use Rattle.mesh_trail.specs.Trails.{AreKept};
ghost use Rattle.mesh_trail.specs.Preparations.{IsNodePrepared, IsPreparedFor, HasDone, HasAnswered};

use crate::casts::{Cast, find, sweep};
use crate::hands::{list_for, prepare_hand, take_front};
use crate::heard::{Front, front_at, knows};
use crate::lists::{Hand, NodeLists, make_list_room, push_list};
use crate::walk::Walk;
use mesh_base::{Done, Event, NoMemory, Packet};
use mesh_world::{StepError, World};
use std::alloc::Global;

/// The parts of a trail. They are in order before and after each event, but not during one.
#[derive(Drop)]
pub(crate) struct Parts {
    pub world: World,
    pub nodes: Vec<NodeLists>,
    pub casts: Vec<Cast>,
    pub hand: Hand,
    /// Casts are swept once there are this many.
    pub many: usize,
}

/// Fewer casts than this aren't swept: that would cost more than the memory that they take up.
pub(crate) const LYING: usize = 64;

// Whether nothing was done.
fn is_idle(done: &Done) -> bool
    ensures { result ≡ idles done.now }
{
    matches!(done, Done::Idle)
}

// Whether a copy came to its receiver.
fn is_heard(done: &Done) -> bool
    ensures { result ≡ hears done.now }
{
    matches!(done, Done::Heard { .. })
}

impl Parts {
    // Makes room for one more cast. Once there are twice as many casts as after the last sweep, and
    // at least `LYING`, those without a copy in flight are removed.
    fn make_room(&mut self) -> Result<(), NoMemory>
        requires { AreKept self.old }
        ensures kept { AreKept self.new }
        ensures world { self.new.world ≡ self.old.world }
        ensures nodes { self.new.nodes ≡ self.old.nodes }
        ensures room { OnOk result (vec_len self.new.casts < vec_capacity self.new.casts) }
    {
        if self.casts.len() >= self.many {
            sweep(&mut self.casts, self.world.radio());
            self.many = self.casts.len().saturating_mul(2).max(LYING);
        }
        self.casts.reserve(1)?;
        Ok(())
    }

    // Prepares what node x may keep and cast when this is at the front of its queue.
    fn prepare_node(&mut self, x: usize, front: Front) -> Result<(), NoMemory>
        requires kept { AreKept self.old }
        requires node { x < length self.old.world.mesh }
        requires front { IsFrontIn (length self.old.world.mesh) front }
        ensures kept { AreKept self.new }
        ensures world { self.new.world ≡ self.old.world }
        ensures prepared { OnOk result (IsNodePrepared x front self.new.world self.new) }
    {
        self.make_room()?;
        let lists = &self.nodes[x];
        prepare_hand(&mut self.hand, lists, x, front)?;
        self.hand.known = knows(&self.world, x, front);
        self.hand.front = front;
        self.hand.first = self.world.radio().next_id();
        Ok(())
    }

    // Prepares the list of the copy of this id, and room for it among those of its receiver's
    // queue.
    fn prepare_copy(&mut self, id: u64) -> Result<(), NoMemory>
        requires kept { AreKept self.old }
        ensures kept { AreKept self.new }
        ensures world { self.new.world ≡ self.old.world }
        ensures prepared { OnOk result (IsPreparedFor (model.Deliver id) self.new.world self.new) }
    {
        let Some(copy) = self.world.radio().find(id) else {
            return Ok(());
        };
        let to = copy.to;
        self.hand.to = to;
        self.hand.taken.copy(find(self.casts.as_slice(), id))?;
        make_list_room(&mut self.nodes, to)?;
        Ok(())
    }

    // Prepares the list of a second copy like the one of this id.
    fn prepare_double(&mut self, id: u64) -> Result<(), NoMemory>
        requires kept { AreKept self.old }
        ensures kept { AreKept self.new }
        ensures world { self.new.world ≡ self.old.world }
        ensures prepared { OnOk result (IsPreparedFor (model.Double id) self.new.world self.new) }
    {
        self.make_room()?;
        self.hand.taken.copy(find(self.casts.as_slice(), id))?;
        self.hand.first = self.world.radio().next_id();
        Ok(())
    }

    /// Takes all memory that the lists need for an event, before the world does it.
    pub fn prepare(&mut self, e: &Event<'_>) -> Result<(), NoMemory>
        requires kept { AreKept self.old }
        requires event { IsEvent (length self.old.world.mesh) (event_of e.now) }
        ensures kept { AreKept self.new }
        ensures world { self.new.world ≡ self.old.world }
        ensures prepared { OnOk result (IsPreparedFor (event_of e.now) self.new.world self.new) }
    {
        match *e {
            Event::Give { node, .. } => make_list_room(&mut self.nodes, node),
            Event::Turn { node } => {
                let front = front_at(&self.world, node);
                self.prepare_node(node, front)
            }
            Event::Send { node, .. } => self.prepare_node(node, Front::New),
            Event::Ask { node, .. } => self.prepare_node(node, Front::New),
            Event::Deliver { id } => self.prepare_copy(id),
            Event::Double { id } => self.prepare_double(id),
            Event::Link { .. } | Event::Cut { .. } | Event::Lose { .. } => Ok(()),
        }
    }

    // The lists follow a turn of node x.
    fn follow_turn(&mut self, alloc: Global, x: usize, done: &Done, out: &Packet)
        requires { HasDone (model.Turn x) self.old done.now out.now.items }
        ensures kept { AreKept self.new }
        ensures world { self.new.world ≡ self.old.world }
    {
        if is_idle(done) {
            return;
        }
        let front = self.hand.front;
        let first = self.hand.first;
        let end = self.world.radio().next_id();
        let lists = &mut self.nodes[x];
        take_front(lists, &self.world, &mut self.hand, x, front);
        if first < end {
            let list = list_for(alloc, &mut self.hand, lists, x, front, &self.world, out);
            self.casts.push_reserved(Cast { first, end, list });
        }
    }

    // The lists follow what node x has sent or asked of its own accord.
    fn follow_own(&mut self, alloc: Global, x: usize, out: &Packet)
        requires { (e : model.Event) × (did : Done) × IsOwnOf x e
            × HasDone e self.old did out.now.items }
        ensures kept { AreKept self.new }
        ensures world { self.new.world ≡ self.old.world }
    {
        let first = self.hand.first;
        let end = self.world.radio().next_id();
        if first < end {
            let lists = &self.nodes[x];
            let front = Front::New;
            let list = list_for(alloc, &mut self.hand, lists, x, front, &self.world, out);
            self.casts.push_reserved(Cast { first, end, list });
        }
    }

    // The lists follow a datum that is given to node x.
    fn follow_give(&mut self, alloc: Global, x: usize, done: &Done)
        requires { (dest : ℕ) × (body : List ℕ) × (packet : List ℕ)
            × HasDone (model.Give x dest body) self.old done.now packet }
        ensures kept { AreKept self.new }
        ensures world { self.new.world ≡ self.old.world }
    {
        if is_idle(done) {
            return;
        }
        push_list(&mut self.nodes, x, Walk::new(alloc));
    }

    // The lists follow a copy that has come to its receiver.
    fn follow_copy(&mut self, alloc: Global, done: &Done)
        requires { (id : ℕ) × (packet : List ℕ)
            × HasDone (model.Deliver id) self.old done.now packet }
        ensures kept { AreKept self.new }
        ensures world { self.new.world ≡ self.old.world }
    {
        if !is_heard(done) {
            return;
        }
        let to = self.hand.to;
        let list = std::mem::replace(&mut self.hand.taken, Walk::new(alloc));
        push_list(&mut self.nodes, to, list);
    }

    // The lists follow a copy that is doubled.
    fn follow_double(&mut self, alloc: Global)
        requires { (id : ℕ) × (did : Done) × (packet : List ℕ)
            × HasDone (model.Double id) self.old did packet }
        ensures kept { AreKept self.new }
        ensures world { self.new.world ≡ self.old.world }
    {
        let first = self.hand.first;
        let end = self.world.radio().next_id();
        if first < end {
            let list = std::mem::replace(&mut self.hand.taken, Walk::new(alloc));
            self.casts.push_reserved(Cast { first, end, list });
        }
    }

    /// The lists follow the world's answer to an event for which they were prepared.
    pub fn follow(
        &mut self,
        alloc: Global,
        e: &Event<'_>,
        answer: &Result<Done, StepError>,
        out: &Packet,
    )
        requires { HasAnswered (event_of e.now) self.old answer.now out.now.items }
        ensures kept { AreKept self.new }
        ensures world { self.new.world ≡ self.old.world }
        ensures number { FillsNumber answer.now }
    {
        let Ok(done) = answer else {
            return;
        };
        match *e {
            Event::Give { node, .. } => self.follow_give(alloc, node, done),
            Event::Turn { node } => self.follow_turn(alloc, node, done, out),
            Event::Send { node, .. } => self.follow_own(alloc, node, out),
            Event::Ask { node, .. } => self.follow_own(alloc, node, out),
            Event::Deliver { .. } => self.follow_copy(alloc, done),
            Event::Double { .. } => self.follow_double(alloc),
            Event::Link { .. } | Event::Cut { .. } | Event::Lose { .. } => {}
        }
    }
}
