//! A node's turn, over its core and its inbox.
ghost use Rattle.std.specs.Prelude.{◌≡◌, length};
ghost use Rattle.std.specs.List.{AllByRecursion};
ghost use Rattle.aodv_handlers.specs.Shown.{IsInOrder};
ghost use Rattle.aodv_node.specs.Seen.{node_seen, IsItemAt};
ghost use Rattle.aodv_node.specs.Turned.{HasAllRooms, IsTurn};
ghost use Rattle.aodv_node.specs.Heard.{done_with as so_done};

use crate::answers::{TurnDone, TurnError};
use crate::heard::handle;
use crate::rooms::make_store;
use aodv_handlers::{Core, new_packet};
use aodv_inbox::Inbox;
use aodv_table::Table;
use mesh_base::{Bytes, Cast, Effect, Item, Mesh, NodeSet, Packet, Took};

// What was done with a datum that was given to the node.
fn done_with(own: Option<Bytes>, dest: usize) -> TurnDone
    ensures { result ≡ so_done own dest }
{
    let effect = Effect {
        deliver: own.is_some(),
        lost: false,
        broken: None,
        cast: Cast::Nothing,
    };
    match own {
        Some(body) => TurnDone {
            took: Took::Own { body },
            effect,
        },
        None => TurnDone {
            took: Took::Stored { dest },
            effect,
        },
    }
}

/// Takes the front item, and does what a node does with it.
pub(crate) fn take_turn<T: Table>(
    core: &mut Core<T>,
    inbox: &mut Inbox,
    mesh: &Mesh,
    range: &NodeSet,
    out: &mut Packet,
) -> Result<TurnDone, TurnError>
    requires order { IsInOrder T.nodes T.entries (length mesh.now) core.old }
    requires each { AllByRecursion (IsItemAt (length mesh.now) core.old.me) inbox.old.items }
    requires rows { HasAllRooms T.nodes T.rooms core.old.table }
    ensures turn { let old = node_seen T.nodes T.entries core.old inbox.old in
        let new = node_seen T.nodes T.entries core.new inbox.new in
        IsTurn mesh.now range.now old result new out.new.items }
    ensures order { IsInOrder T.nodes T.entries (length mesh.now) core.new }
{
    let Some(item) = inbox.front() else {
        return Err(TurnError::Idle);
    };
    match item {
        Item::New { dest, body: _ } => {
            let dest = *dest;
            make_store(core, dest)?;
            match inbox.pop() {
                Some(Item::New { dest, body }) => {
                    let own = new_packet(core, dest, body);
                    out.clear();
                    Ok(done_with(own, dest))
                }
                _ => unreachable!(),
            }
        }
        Item::Heard { from, bytes } => {
            let from = *from;
            match handle(core, mesh, range, from, bytes.as_slice(), out) {
                Ok((kind, effect)) => match inbox.pop() {
                    Some(Item::Heard { from, bytes }) => Ok(TurnDone {
                        took: Took::Heard { from, kind, bytes },
                        effect,
                    }),
                    _ => unreachable!(),
                },
                Err(TurnError::Refused { from, why }) => {
                    inbox.pop();
                    Err(TurnError::Refused { from, why })
                }
                Err(TurnError::Stranger { from, who }) => {
                    inbox.pop();
                    Err(TurnError::Stranger { from, who })
                }
                Err(TurnError::Full(field)) => Err(TurnError::Full(field)),
                Err(TurnError::NoMemory) => Err(TurnError::NoMemory),
                Err(TurnError::Idle) => unreachable!(),
            }
        }
    }
}
