//! The trail.
ghost use Rattle.std.specs.Prelude.{◌≡◌, ◌≤◌, ◌<◌, ◌+◌, ◌↔◌, None, length, IsNone, IfSome};
ghost use Rattle.mesh_base.specs.Bounds.{most_steps};
ghost use Rattle.mesh_model.specs.InMesh.{IsEvent};
ghost use Rattle.mesh_model.specs.Routes.{next_hop};
ghost use Rattle.mesh_meaning.specs.Events.{event_of};
ghost use Rattle.mesh_world.specs.Seen.{WorldSeen, IsSoundWorld};
ghost use Rattle.mesh_world.specs.Steps.{IsStep};
ghost use Rattle.mesh_world.specs.Accounts.{KeepsAccount};
ghost use Rattle.mesh_trail.specs.Walks.{IsRouteWalk, FillsNumber};

use crate::heard::Front;
use crate::lists::{Hand, blank_lists};
use crate::parts::{LYING, Parts};
use crate::walk::{Room, Walk};
use aodv_model::Flag;
use mesh_base::{Done, Event, Mesh, NoMemory, Packet, Variant};
use mesh_world::{StepError, Steps, World};
use std::alloc::Global;
use std::marker::Model;

/// A world, and an honest walk for each of its valid routes. As a `Steps` it is its world.
///
/// The memory that walks take grows with the hops of each node's routes and of the requests and
/// replies in its queue. The copies in flight of one cast share one walk.
#[derive(Drop)]
pub struct Trail {
    parts: Parts,
}

impl Model for Trail {
    ghost use Rattle.mesh_world.specs.Seen.{WorldSeen, seen_code};
    ghost use Rattle.mesh_trail.specs.Trails.{AreKept};

    ghost Value = { WorldSeen };

    ghost coded = { seen_code };

    ghost view = { λ t. t.parts.world };

    ghost invariant = { λ t. AreKept t.parts };
}

impl Trail {
    /// An honest walk for the valid route of a node to `dest`: the nodes from `dest` to the node,
    /// one more than the route has hops. Each has been linked to the next at some time, though
    /// maybe it isn't now, and all after the first are different. None if the node has no valid
    /// route to `dest`.
    pub fn walk(&self, node: usize, dest: usize) -> Option<&[usize]>
        requires node { node < length self.now.mesh }
        requires dest { dest < length self.now.mesh }
        ensures none { IsNone result ↔ (next_hop self.now.world node dest ≡ None) }
        ensures walk { IfSome result (λ walk. IsRouteWalk self.now.world node dest walk.now) }
        ensures short { IfSome result (λ walk. length walk.now ≤ length self.now.mesh + 1) }
    {
        let entry = self.parts.world.node(node).entry(dest)?;
        if entry.flag != Flag::Val {
            return None;
        }
        let lists = &self.parts.nodes[node];
        Some(lists.entries[dest].as_slice())
    }
}

impl Steps for Trail {
    ghost seen = { λ t. t };

    fn with(alloc: Global, mesh: &Mesh, variant: Variant) -> Result<Trail, NoMemory> {
        let world = World::with(alloc, mesh, variant)?;
        let nodes = blank_lists(alloc, world.mesh().len())?;
        let hand = Hand {
            near: Walk::new(alloc),
            announced: Walk::new(alloc),
            taken: Walk::new(alloc),
            room: Room::new(alloc),
            front: Front::Empty,
            to: 0,
            first: 0,
            known: false,
        };
        let parts = Parts {
            world,
            nodes,
            casts: Vec::new(alloc),
            hand,
            many: LYING,
        };
        Ok(Trail { parts })
    }

    #[inline(always)]
    fn step(&mut self, alloc: Global, e: &Event<'_>, out: &mut Packet) -> Result<Done, StepError>
        requires event { IsEvent (length self.old.mesh) (event_of e.now) }
        requires few { self.old.steps < most_steps }
        ensures step { IsStep (event_of e.now) self.old result self.new out.new.items }
        ensures account { KeepsAccount (event_of e.now) self.old result self.new }
        ensures sound { IsSoundWorld self.new }
        ensures number { FillsNumber result }
    {
        self.parts.prepare(e)?;
        let answer = self.parts.world.step(alloc, e, out);
        self.parts.follow(alloc, e, &answer, out);
        answer
    }

    fn world(&self) -> &World {
        &self.parts.world
    }
}
