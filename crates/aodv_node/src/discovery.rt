//! The send of a stored datum, and a request of the node's own, each only if it may be done.
ghost use Rattle.std.specs.Prelude.{◌<◌, length};
ghost use Rattle.aodv_handlers.specs.Shown.{core_of, IsInOrder};
ghost use Rattle.aodv_node.specs.Discovered.{IsSend, IsAsk};

use crate::answers::{AskError, SendError};
use crate::rooms::make_own_request;
use aodv_handlers::{Core, may_ask, may_send, next_request, send_stored, start_request};
use aodv_table::Table;
use mesh_base::{Effect, Mesh, NodeSet, Packet};

/// Sends the first datum that waits for `dest`.
pub(crate) fn try_send<T: Table>(
    core: &mut Core<T>,
    mesh: &Mesh,
    range: &NodeSet,
    dest: usize,
    out: &mut Packet,
) -> Result<Effect, SendError>
    requires order { IsInOrder T.nodes T.entries (length mesh.now) core.old }
    requires dest { dest < length mesh.now }
    ensures does { let old = core_of T.entries core.old in let new = core_of T.entries core.new in
        IsSend mesh.now range.now old dest result new out.new.items }
    ensures order { IsInOrder T.nodes T.entries (length mesh.now) core.new }
{
    if !may_send(core, dest) {
        return Err(SendError::Idle);
    }
    match send_stored(core, mesh, range, dest, out) {
        Ok(effect) => Ok(effect),
        Err(field) => Err(SendError::Full(field)),
    }
}

/// Asks for a route to `dest`.
pub(crate) fn try_ask<T: Table>(
    core: &mut Core<T>,
    mesh: &Mesh,
    dest: usize,
    out: &mut Packet,
) -> Result<Effect, AskError>
    requires order { IsInOrder T.nodes T.entries (length mesh.now) core.old }
    requires dest { dest < length mesh.now }
    ensures does { let old = core_of T.entries core.old in let new = core_of T.entries core.new in
        IsAsk mesh.now old dest result new out.new.items }
    ensures order { IsInOrder T.nodes T.entries (length mesh.now) core.new }
{
    if !may_ask(core, dest) {
        return Err(AskError::Idle);
    }
    let id = match next_request(core) {
        Ok((_, id)) => id,
        Err(field) => return Err(AskError::Full(field)),
    };
    make_own_request(core, id)?;
    match start_request(core, mesh, dest, out) {
        Ok(effect) => Ok(effect),
        Err(field) => Err(AskError::Full(field)),
    }
}
