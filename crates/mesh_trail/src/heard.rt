//! What waits at the front of a queue, and what its node learns of it.
ghost use Rattle.std.specs.Prelude.{◌≡◌, ◌<◌, Option, length, slice_get};
ghost use Rattle.mesh_model.specs.Walks.{table};
ghost use Rattle.mesh_trail.specs.Said.{IsSaidIn};
ghost use Rattle.mesh_trail.specs.Heard.{front_of, IsFrontIn, leads_to, is_known, knows, announces, lesson_of};

use crate::said::{Said, read_said};
use aodv_model::{Entry, Flag};
use mesh_base::Item;
use mesh_world::World;

/// What waits at the front of a node's queue.
#[derive(Clone, Copy)]
pub(crate) enum Front {
    /// Nothing.
    Empty,
    /// A datum that was given to the node.
    New,
    /// A message from a neighbour.
    Heard { from: usize, said: Said },
}

/// What a node has learnt from a message: if `near`, that it has the neighbour `from`, and if
/// `announced`, that its entry for `dest` is the route that the message announced.
#[derive(Clone, Copy)]
pub(crate) struct Lesson {
    pub from: usize,
    pub near: bool,
    pub dest: usize,
    pub announced: bool,
}

/// What waits at the front of the queue of node x.
pub(crate) fn front_at(world: &World, x: usize) -> Front
    requires { x < length world.now.mesh }
    ensures value { result ≡ front_of (slice_get world.now.world.nodes x) }
    ensures within { IsFrontIn (length world.now.mesh) result }
{
    let mesh = world.mesh();
    match world.node(x).inbox().front() {
        None => Front::Empty,
        Some(Item::New { .. }) => Front::New,
        Some(Item::Heard { from, bytes }) => Front::Heard {
            from: *from,
            said: read_said(mesh, bytes.as_slice()),
        },
    }
}

// Whether there is an entry, and it leads to the neighbour itself.
fn is_near(entry: Option<Entry>, from: usize) -> bool
    ensures { result ≡ leads_to from entry }
{
    match entry {
        Some(e) => e.hops == 1 && e.next == from,
        None => false,
    }
}

// Whether there is an entry, and it is a valid route to the neighbour itself.
fn is_known(entry: Option<Entry>, from: usize) -> bool
    ensures { result ≡ is_known from entry }
{
    match entry {
        Some(e) => e.flag == Flag::Val && (e.hops == 1 && e.next == from),
        None => false,
    }
}

/// Whether what waits at node x is from a neighbour to which the node has a valid route of one hop.
pub(crate) fn knows(world: &World, x: usize, front: Front) -> bool
    requires node { x < length world.now.mesh }
    requires front { IsFrontIn (length world.now.mesh) front }
    ensures { result ≡ knows (table world.now.world x) front }
{
    match front {
        Front::Empty | Front::New => false,
        Front::Heard { from, .. } => is_known(world.node(x).entry(from), from),
    }
}

// Whether the entry is the route that a neighbour announced, with this number and this many hops
// from the neighbour.
fn is_announced(entry: Option<Entry>, from: usize, number: u32, hops: u8) -> bool
    ensures { result ≡ announces from number hops entry }
{
    match entry {
        Some(e) => e.dsn == number && u64::from(e.hops) == u64::from(hops) + 1 && e.next == from,
        None => false,
    }
}

/// What node x has learnt from what a neighbour said.
pub(crate) fn lesson_at(world: &World, x: usize, from: usize, said: Said) -> Lesson
    requires node { x < length world.now.mesh }
    requires from { from < length world.now.mesh }
    requires said { IsSaidIn (length world.now.mesh) said }
    ensures value { result ≡ lesson_of (table world.now.world x) from said }
    ensures same { result.from ≡ from }
    ensures from { result.from < length world.now.mesh }
    ensures dest { result.dest < length world.now.mesh }
{
    let node = world.node(x);
    let near = is_near(node.entry(from), from);
    match said {
        Said::Parcel => Lesson {
            from,
            near: false,
            dest: from,
            announced: false,
        },
        Said::Error => Lesson {
            from,
            near,
            dest: from,
            announced: false,
        },
        Said::Request {
            origin,
            number,
            hops,
            ..
        } => Lesson {
            from,
            near,
            dest: origin,
            announced: is_announced(node.entry(origin), from, number, hops),
        },
        Said::Reply { dest, number, hops } => Lesson {
            from,
            near,
            dest,
            announced: is_announced(node.entry(dest), from, number, hops),
        },
    }
}
