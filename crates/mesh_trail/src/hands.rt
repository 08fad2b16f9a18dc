//! What a step of a node needs in hand, and what it does with it.
ghost use Rattle.std.specs.Prelude.{◌≡◌, ◌<◌, ◌≤◌, [], length, drop, None, OnOk};
ghost use Rattle.aodv_wire.specs.Encodes.{refusal};
ghost use Rattle.aodv_meaning.specs.Meaning.{meaning};
ghost use Rattle.mesh_model.specs.Walks.{table};
ghost use Rattle.mesh_trail.specs.Said.{said_of};
ghost use Rattle.mesh_trail.specs.Heard.{IsFrontIn};
ghost use Rattle.mesh_trail.specs.Lists.{row, sent_list};
ghost use Rattle.mesh_trail.specs.Steps.{IsPrepared, KnowsNear, FitsReply, HasRoomFor, front_list, rows_after, sent_after};

use crate::heard::{Front, lesson_at};
use crate::lists::{Hand, NodeLists, learn};
use crate::said::{Said, read_said};
use crate::walk::{Room, Walk};
use mesh_base::{NoMemory, Packet};
use mesh_world::World;
use std::alloc::Global;

// The list of destination d.
fn row_at(rows: &[Walk], d: usize) -> &[usize]
    ensures { result.now ≡ row rows.now d }
{
    match rows.get(d) {
        Some(list) => list.as_slice(),
        None => &[],
    }
}

// How many nodes a list has that a reply to this message may take from an entry.
fn reply_len(rows: &[Walk], said: Said) -> usize
    ensures { FitsReply rows.now result said }
{
    match said {
        Said::Parcel | Said::Error => 0,
        Said::Request { dest, .. } | Said::Reply { dest, .. } => row_at(rows, dest).len(),
    }
}

// The list of the queue's front item.
fn first_in(lists: &NodeLists) -> &[usize]
    ensures { result.now ≡ front_list lists.now.queue.items }
{
    match lists.queue.front() {
        Some(list) => list.as_slice(),
        None => &[],
    }
}

/// Prepares what node x may keep and cast when this is at the front of its queue.
pub(crate) fn prepare_hand(
    hand: &mut Hand,
    lists: &NodeLists,
    x: usize,
    front: Front,
) -> Result<(), NoMemory>
    ensures { OnOk result (IsPrepared x front lists.now.entries.items
        (front_list lists.now.queue.items) hand.new) }
{
    let Front::Heard { from, said } = front else {
        return hand.room.make(1);
    };
    let list = first_in(lists);
    hand.near.write_two(from, x)?;
    hand.announced.write(list, x)?;
    let reply = reply_len(lists.entries.as_slice(), said);
    hand.room
        .make(reply.max(list.len().saturating_add(1)).max(2))
}

/// Takes the front item from the queue of node x, which keeps what it has learnt from it. The list
/// of the item is left in hand.
pub(crate) fn take_front(
    lists: &mut NodeLists,
    world: &World,
    hand: &mut Hand,
    x: usize,
    front: Front,
)
    requires node { x < length world.now.mesh }
    requires rows { length lists.old.entries.items ≡ length world.now.mesh }
    requires front { IsFrontIn (length world.now.mesh) front }
    requires known { KnowsNear front hand.old lists.old.entries.items }
    ensures taken { hand.new.taken ≡ front_list lists.old.queue.items }
    ensures queue { lists.new.queue.items ≡ drop 1 lists.old.queue.items }
    ensures rows { let rt = table world.now.world x in let old = lists.old.entries.items in
        lists.new.entries.items ≡ rows_after rt front hand.old.near hand.old.announced old }
    ensures room { hand.new.room ≡ hand.old.room }
{
    if let Front::Heard { from, said } = front {
        let lesson = lesson_at(world, x, from, said);
        learn(&mut lists.entries, lesson, hand);
    }
    match lists.queue.pop_front() {
        Some(list) => hand.taken = list,
        None => hand.taken.clear(),
    }
}

// The list of what node x casts.
fn written(room: Room, rows: &[Walk], x: usize, front: Front, list: &[usize], cast: Said) -> Walk
    requires { HasRoomFor x front rows.now list.now room }
    ensures { result ≡ sent_after x front rows.now list.now cast }
{
    match front {
        Front::Heard { said, .. } => written_of(room, rows, x, said, list, cast),
        Front::Empty | Front::New => written_of(room, rows, x, Said::Parcel, &[], cast),
    }
}

// The list of what node x casts when it has heard this, which had this list.
fn written_of(room: Room, rows: &[Walk], x: usize, heard: Said, list: &[usize], cast: Said) -> Walk
    requires { length (sent_list x rows.now heard list.now cast) ≤ room }
    ensures { result ≡ sent_list x rows.now heard list.now cast }
{
    match cast {
        Said::Parcel | Said::Error => room.fill(&[]),
        Said::Request { .. } => room.fill_to(list, x),
        Said::Reply { .. } => match heard {
            Said::Parcel | Said::Error => room.fill(&[]),
            Said::Request { dest, .. } => {
                if dest == x {
                    room.fill_to(&[], x)
                } else {
                    room.fill(row_at(rows, dest))
                }
            }
            Said::Reply { dest, .. } => room.fill(row_at(rows, dest)),
        },
    }
}

/// The list of what x has cast of its own accord, or after it took its front item, whose list is in
/// hand.
pub(crate) fn list_for(
    alloc: Global,
    hand: &mut Hand,
    lists: &NodeLists,
    x: usize,
    front: Front,
    world: &World,
    out: &Packet,
) -> Walk
    requires { HasRoomFor x front lists.now.entries.items hand.old.taken hand.old.room }
    ensures { refusal out.now.items ≡ None →
        result ≡ sent_after x front lists.now.entries.items hand.old.taken
        (said_of (meaning world.now.mesh out.now.items)) }
{
    let cast = read_said(world.mesh(), out.as_slice());
    if matches!(cast, Said::Parcel | Said::Error) {
        return Walk::new(alloc);
    }
    let room = std::mem::replace(&mut hand.room, Room::new(alloc));
    written(
        room,
        lists.entries.as_slice(),
        x,
        front,
        hand.taken.as_slice(),
        cast,
    )
}
