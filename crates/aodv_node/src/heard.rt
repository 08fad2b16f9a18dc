//! A turn on the bytes of a packet that was heard.
ghost use Rattle.std.specs.Prelude.{◌≡◌, ◌≢◌, ◌<◌, length, None};
ghost use Rattle.aodv_model.specs.Cores.{Heard, Rreq as a_request, Rrep as a_reply, Rerr as an_error};
ghost use Rattle.aodv_model.specs.Soundness.{IsMessageInMesh};
ghost use Rattle.aodv_wire.specs.declared.message.Message.TheVariants as messages;
ghost use Rattle.aodv_meaning.specs.Meaning.{dests_in, stranger};
ghost use Rattle.aodv_handlers.specs.Shown.{core_of, IsInOrder, parcel_of, reply_of, request_of};
ghost use Rattle.aodv_node.specs.Heard.{IsHeard, TakesIfRoom, with_kind};
ghost use Rattle.aodv_node.specs.Turned.{HasAllRooms};

use crate::answers::TurnError;
use crate::meaning::{Meaning, meaning_of};
use crate::rooms::{make_request, make_row};
use aodv_handlers::{
    Core, Datum, Reply, Request, has_seen, on_rerr, take_datum, take_new_request, take_reply,
    take_seen_request,
};
use aodv_table::Table;
use aodv_wire::{RerrView, read};
use mesh_base::{Effect, Kind, Mesh, NodeSet, Packet};

/// A turn on bytes from a node. It is inlined into both its callers, and its handlers are inlined
/// into it: as a function of its own it would clear its frame and hand its answer on through
/// memory.
#[inline(always)]
pub(crate) fn handle<T: Table>(
    core: &mut Core<T>,
    mesh: &Mesh,
    range: &NodeSet,
    from: usize,
    bytes: &[u8],
    out: &mut Packet,
) -> Result<(Kind, Effect), TurnError>
    requires order { IsInOrder T.nodes T.entries (length mesh.now) core.old }
    requires from { from < length mesh.now }
    requires other { from ≢ core.old.me }
    requires rows { HasAllRooms T.nodes T.rooms core.old.table }
    ensures does { let old = core_of T.entries core.old in let new = core_of T.entries core.new in
        IsHeard mesh.now old range.now from bytes.now result new out.new.items }
    ensures order { IsInOrder T.nodes T.entries (length mesh.now) core.new }
{
    match read(bytes) {
        Err(why) => Err(TurnError::Refused { from, why }),
        Ok(message) => match meaning_of(mesh, message) {
            Err(who) => Err(TurnError::Stranger { from, who }),
            Ok(Meaning::Request(m)) => {
                with_kind(Kind::Rreq, handle_request(core, mesh, range, from, &m, out))
            }
            Ok(Meaning::Reply(m)) => {
                with_kind(Kind::Rrep, handle_reply(core, mesh, range, from, &m, out))
            }
            Ok(Meaning::Error(m)) => {
                with_kind(Kind::Rerr, handle_error(core, mesh, range, from, &m, out))
            }
            Ok(Meaning::Datum(m)) => {
                with_kind(Kind::Data, handle_datum(core, mesh, range, from, &m, out))
            }
        },
    }
}

fn with_kind(kind: Kind, done: Result<Effect, TurnError>) -> Result<(Kind, Effect), TurnError>
    ensures { result ≡ with_kind kind done }
{
    match done {
        Ok(effect) => Ok((kind, effect)),
        Err(why) => Err(why),
    }
}

#[inline(always)]
fn handle_request<T: Table>(
    core: &mut Core<T>,
    mesh: &Mesh,
    range: &NodeSet,
    from: usize,
    m: &Request,
    out: &mut Packet,
) -> Result<Effect, TurnError>
    requires order { IsInOrder T.nodes T.entries (length mesh.now) core.old }
    requires says { IsMessageInMesh (length mesh.now) (a_request (request_of m.now)) }
    requires from { from < length mesh.now }
    requires other { from ≢ core.old.me }
    requires rows { HasAllRooms T.nodes T.rooms core.old.table }
    ensures does { let message = Heard from (a_request (request_of m.now)) in
        TakesIfRoom T.entries mesh.now range.now message core.old result core.new out.new.items }
    ensures order { IsInOrder T.nodes T.entries (length mesh.now) core.new }
{
    make_row(core, from)?;
    // Most requests that are heard were seen before, and these need no room of their own.
    if has_seen(core, m) {
        return Ok(take_seen_request(core, from, out));
    }
    make_row(core, m.oip)?;
    make_request(core, m.oip)?;
    match take_new_request(core, mesh, range, from, m, out) {
        Ok(effect) => Ok(effect),
        Err(full) => Err(TurnError::Full(full)),
    }
}

#[inline(always)]
fn handle_reply<T: Table>(
    core: &mut Core<T>,
    mesh: &Mesh,
    range: &NodeSet,
    from: usize,
    m: &Reply,
    out: &mut Packet,
) -> Result<Effect, TurnError>
    requires order { IsInOrder T.nodes T.entries (length mesh.now) core.old }
    requires says { IsMessageInMesh (length mesh.now) (a_reply (reply_of m.now)) }
    requires from { from < length mesh.now }
    requires other { from ≢ core.old.me }
    requires rows { HasAllRooms T.nodes T.rooms core.old.table }
    ensures does { let message = Heard from (a_reply (reply_of m.now)) in
        TakesIfRoom T.entries mesh.now range.now message core.old result core.new out.new.items }
    ensures order { IsInOrder T.nodes T.entries (length mesh.now) core.new }
{
    make_row(core, from)?;
    make_row(core, m.dip)?;
    match take_reply(core, mesh, range, from, m, out) {
        Ok(effect) => Ok(effect),
        Err(full) => Err(TurnError::Full(full)),
    }
}

#[inline(always)]
fn handle_error<T: Table>(
    core: &mut Core<T>,
    mesh: &Mesh,
    range: &NodeSet,
    from: usize,
    m: &RerrView<'_>,
    out: &mut Packet,
) -> Result<Effect, TurnError>
    requires order { IsInOrder T.nodes T.entries (length mesh.now) core.old }
    requires known { stranger mesh.now (messages.Rerr m.now) ≡ None }
    requires from { from < length mesh.now }
    requires other { from ≢ core.old.me }
    requires rows { HasAllRooms T.nodes T.rooms core.old.table }
    ensures does { let message = Heard from (an_error (dests_in mesh.now m.now)) in
        TakesIfRoom T.entries mesh.now range.now message core.old result core.new out.new.items }
    ensures order { IsInOrder T.nodes T.entries (length mesh.now) core.new }
{
    make_row(core, from)?;
    Ok(on_rerr(core, mesh, from, m, out))
}

#[inline(always)]
fn handle_datum<T: Table>(
    core: &mut Core<T>,
    mesh: &Mesh,
    range: &NodeSet,
    from: usize,
    m: &Datum<'_>,
    out: &mut Packet,
) -> Result<Effect, TurnError>
    requires order { IsInOrder T.nodes T.entries (length mesh.now) core.old }
    requires says { IsMessageInMesh (length mesh.now) (parcel_of m.now) }
    ensures does { let message = Heard from (parcel_of m.now) in
        TakesIfRoom T.entries mesh.now range.now message core.old result core.new out.new.items }
    ensures order { IsInOrder T.nodes T.entries (length mesh.now) core.new }
{
    match take_datum(core, mesh, range, m, out) {
        Ok(effect) => Ok(effect),
        Err(full) => Err(TurnError::Full(full)),
    }
}
