//! The lists of one node.
ghost use Rattle.std.specs.Prelude.{◌≡◌, ◌<◌, [], true, length, slice_set, IfOk, OnOk};
ghost use Rattle.std.specs.List.{AllByRecursion};
ghost use Rattle.mesh_trail.specs.Lists.{IsBlank, IsRoomed, HasRoom, IsPushed, row, put_if, after_lesson};

use crate::heard::{Front, Lesson};
use crate::walk::{Room, Walk};
use mesh_base::NoMemory;
use std::alloc::Global;
use std::collections::VecDeque;

/// The lists that a node keeps: one for its entry for each destination, and one for each item of
/// its queue.
#[derive(Drop)]
pub(crate) struct NodeLists {
    pub entries: Vec<Walk>,
    pub queue: VecDeque<Walk>,
}

/// Lists that a step may keep, written before the step is done, and memory for the list of a cast;
/// and the list of the item that was taken last from a queue, whose memory is used again for the
/// list of a copy. What these are between steps doesn't matter.
#[derive(Drop)]
pub(crate) struct Hand {
    pub near: Walk,
    pub announced: Walk,
    pub taken: Walk,
    pub room: Room,
    /// What waits at the front of the queue, if the node is to take a turn.
    pub front: Front,
    /// The receiver of the copy that may be delivered.
    pub to: usize,
    /// The id that the next copy gets.
    pub first: u64,
    /// Whether the node's entry for its neighbour is known to have the list in `near`.
    pub known: bool,
}

// An empty list for each of this many nodes.
fn empty_rows(alloc: Global, nodes: usize) -> Result<Vec<Walk>, NoMemory>
    ensures count { IfOk result (λ rows. length rows.items ≡ nodes) }
    ensures empty { IfOk result (λ rows. AllByRecursion (λ l. l ≡ []) rows.items) }
{
    let mut rows = Vec::with_capacity(alloc, nodes)?;
    for _ in 0..nodes {
        rows.push(Walk::new(alloc))?;
    }
    Ok(rows)
}

/// The lists of this many nodes, all empty.
pub(crate) fn blank_lists(alloc: Global, nodes: usize) -> Result<Vec<NodeLists>, NoMemory>
    ensures count { IfOk result (λ lists. length lists.items ≡ nodes) }
    ensures blank { IfOk result (λ lists. AllByRecursion (IsBlank nodes) lists.items) }
{
    let mut lists = Vec::with_capacity(alloc, nodes)?;
    for _ in 0..nodes {
        lists.push(NodeLists {
            entries: empty_rows(alloc, nodes)?,
            queue: VecDeque::new(alloc),
        })?;
    }
    Ok(lists)
}

/// Makes room for one more list among those of node x's queue.
pub(crate) fn make_list_room(nodes: &mut Vec<NodeLists>, x: usize) -> Result<(), NoMemory>
    requires { x < length nodes.old.items }
    ensures same { IsRoomed x nodes.old.items nodes.new.items }
    ensures room { OnOk result (HasRoom x nodes.new.items) }
{
    let lists = &mut nodes[x];
    lists.queue.reserve(1)?;
    Ok(())
}

/// The list joins those of node x's queue, at the end.
pub(crate) fn push_list(nodes: &mut Vec<NodeLists>, x: usize, list: Walk)
    requires node { x < length nodes.old.items }
    requires room { HasRoom x nodes.old.items }
    ensures { IsPushed x list nodes.old.items nodes.new.items }
{
    let lists = &mut nodes[x];
    lists.queue.push_back_reserved(list);
}

// Puts the list in the place of that of destination d, and leaves that one in `list`.
fn exchange(rows: &mut Vec<Walk>, d: usize, list: &mut Walk)
    requires { d < length rows.old.items }
    ensures { rows.new.items ≡ slice_set rows.old.items d list.old }
{
    let row = &mut rows[d];
    std::mem::swap(row, list);
}

// Puts the list of two nodes that is in hand in the place of that of the neighbour's entry, if this
// entry leads to the neighbour itself and isn't known to have that list.
fn exchange_near(rows: &mut Vec<Walk>, lesson: Lesson, hand: &mut Hand)
    requires from { lesson.from < length rows.old.items }
    requires known { hand.old.known ≡ true → row rows.old.items lesson.from ≡ hand.old.near }
    ensures rows { rows.new.items ≡ put_if lesson.near lesson.from hand.old.near rows.old.items }
    ensures announced { hand.new.announced ≡ hand.old.announced }
    ensures room { hand.new.room ≡ hand.old.room }
{
    if lesson.near && !hand.known {
        exchange(rows, lesson.from, &mut hand.near);
    }
}

/// What a node keeps of a message that it heard: the list of the two nodes if its entry for the
/// neighbour leads to the neighbour itself, and the longer list if its entry for the destination is
/// the route that was announced and doesn't have the list of the two. The lists that are replaced
/// are left in hand.
pub(crate) fn learn(rows: &mut Vec<Walk>, lesson: Lesson, hand: &mut Hand)
    requires from { lesson.from < length rows.old.items }
    requires dest { lesson.dest < length rows.old.items }
    requires known { hand.old.known ≡ true → row rows.old.items lesson.from ≡ hand.old.near }
    ensures rows { rows.new.items
        ≡ after_lesson lesson hand.old.near hand.old.announced rows.old.items }
    ensures room { hand.new.room ≡ hand.old.room }
{
    exchange_near(rows, lesson, hand);
    let taken = lesson.near && lesson.from == lesson.dest;
    if lesson.announced && !taken {
        exchange(rows, lesson.dest, &mut hand.announced);
    }
}
