//! What a node does of its own accord: it sends a datum that waited, and asks for a route (AWN's
//! main process; RFC 3561, section 6.3).
ghost use Rattle.std.specs.Prelude.{◌≡◌, ◌<◌, true, false, length, ◌⊎◌, slice_index, Some, None, IfSome, IfOk, IfErr, IsTrue, is_none};
ghost use Rattle.aodv_model.specs.Tables.{sqn, sqnf};
ghost use Rattle.aodv_model.specs.Handlers.{fresh_id, may_send as can_send, may_ask as can_ask};
ghost use Rattle.aodv_model.specs.Fullness.{is_id_full, ask_full};
ghost use Rattle.aodv_asked.specs.Requests.{is_near};
ghost use Rattle.aodv_model.specs.Quality.{is_kno, inc as raised};
ghost use Rattle.aodv_handlers.specs.Shown.{core_of, IsInOrder};
ghost use Rattle.aodv_handlers.specs.Made.{Sends, Asks};

use crate::cores::Core;
use crate::routes::{has_route, next_hop};
use crate::unicast::{casting, fail};
use aodv_model::{Known, inc};
use aodv_table::Table;
use aodv_wire::{Rreq, write_data, write_rreq};
use mesh_base::{Cast, Effect, Full, Mesh, NodeSet, Packet, Variant};

/// Whether a datum waits for `dest` and there is a valid route to it.
pub fn may_send<T: Table>(core: &Core<T>, dest: usize) -> bool
    requires { dest < T.nodes core.now.table }
    ensures { result ≡ can_send (core_of T.entries core.now) dest }
{
    core.waiting.has(dest) && has_route(&core.table, dest)
}

/// Whether a datum waits for `dest`, there is no valid route to it, and a request for one is still
/// to be made.
pub fn may_ask<T: Table>(core: &Core<T>, dest: usize) -> bool
    requires { dest < T.nodes core.now.table }
    ensures { result ≡ can_ask (core_of T.entries core.now) dest }
{
    core.waiting.has(dest) && core.waiting.needs_request(dest) && !has_route(&core.table, dest)
}

/// Sends the first datum that waits for `dest`. It stays if the next hop isn't in range.
#[tactic(auto, unfolding(aodv_model::specs::Handlers::send, aodv_model::specs::Handlers::unicast))]
pub fn send_stored<T: Table>(
    core: &mut Core<T>,
    mesh: &Mesh,
    range: &NodeSet,
    dest: usize,
    out: &mut Packet,
) -> Result<Effect, Full>
    requires order { IsInOrder T.nodes T.entries (length mesh.now) core.old }
    requires dest { dest < length mesh.now }
    requires may { can_send (core_of T.entries core.old) dest ≡ true }
    ensures does { Sends T.entries mesh.now range.now dest core.old result core.new out.new.items }
    ensures order { IsInOrder T.nodes T.entries (length mesh.now) core.new }
    ensures rooms { T.rooms core.new.table ≡ T.rooms core.old.table }
    ensures asked { core.new.asked ≡ core.old.asked }
{
    let towards = next_hop(&core.table, dest);
    if !range.has(towards) {
        return fail(core, mesh, towards, out);
    }
    match core.waiting.first(dest) {
        Some(body) => write_data(mesh.at(dest), mesh.at(core.me), body, out),
        None => unreachable!(),
    }
    core.waiting.drop_first(dest);
    Ok(casting(Cast::One(towards)))
}

// The number of d and whether it is known.
fn last_known<T: Table>(table: &T, d: usize) -> (u32, bool)
    requires { d < T.nodes table.now }
    ensures { result ≡ (sqn (T.entries table.now) d, is_kno (sqnf (T.entries table.now) d)) }
{
    match table.get(d) {
        Some(e) => (e.dsn, e.dsk == Known::Kno),
        None => (0, false),
    }
}

// The id of the node's next request, whose number is sn. None means that no id is left.
fn request_id<T: Table>(core: &Core<T>, sn: u32) -> Option<u32>
    requires within { core.now.me < length core.now.asked.rooms }
    requires raised { sn ≡ raised core.now.sn }
    ensures full { let c = core_of T.entries core.now in is_none result ≡ is_id_full c.variant c }
    ensures value { let c = core_of T.entries core.now in
        IfSome result (λ id. id ≡ fresh_id c.variant c) }
{
    match core.variant {
        Variant::Number => Some(sn),
        _ => core.asked.next_id(core.me),
    }
}

/// The node's own number and the id of its next request, or the counter that this request would
/// raise past its field's greatest value.
pub fn next_request<T: Table>(core: &Core<T>) -> Result<(u32, u32), Full>
    requires { core.now.me < length core.now.asked.rooms }
    ensures free { IfOk result (λ p. ask_full (core_of T.entries core.now) ≡ None) }
    ensures full { IfErr result (λ field. ask_full (core_of T.entries core.now) ≡ Some field) }
    ensures number { IfOk result (λ p. p.0 ≡ raised core.now.sn) }
    ensures id { let c = core_of T.entries core.now in
        IfOk result (λ p. p.1 ≡ fresh_id c.variant c) }
{
    let Some(sn) = inc(core.sn) else {
        return Err(Full::Number);
    };
    match request_id(core, sn) {
        Some(id) => Ok((sn, id)),
        None => Err(Full::Id),
    }
}

/// Asks for a route to `dest`: the node raises its own number, and broadcasts a request with it. No
/// room for the request is needed if its id or one next to it was seen.
#[tactic(auto, unfolding(aodv_model::specs::Handlers::ask))]
pub fn start_request<T: Table>(
    core: &mut Core<T>,
    mesh: &Mesh,
    dest: usize,
    out: &mut Packet,
) -> Result<Effect, Full>
    requires order { IsInOrder T.nodes T.entries (length mesh.now) core.old }
    requires dest { dest < length mesh.now }
    requires may { can_ask (core_of T.entries core.old) dest ≡ true }
    requires asked { let c = core_of T.entries core.old in
        (0 < slice_index core.old.asked.rooms c.ip)
        ⊎ IsTrue (is_near c.seen c.ip (fresh_id c.variant c)) }
    ensures does { Asks T.entries mesh.now dest core.old result core.new out.new.items }
    ensures order { IsInOrder T.nodes T.entries (length mesh.now) core.new }
    ensures table { core.new.table ≡ core.old.table }
{
    let (sn, id) = next_request(core)?;
    let (dsn, known) = last_known(&core.table, dest);
    let request = Rreq {
        hops: 0,
        id,
        dip: mesh.at(dest),
        dsn,
        known,
        oip: mesh.at(core.me),
        osn: sn,
    };
    write_rreq(&request, out);
    core.sn = sn;
    core.asked.insert(core.me, id);
    core.waiting.unset_req(dest);
    Ok(casting(Cast::All))
}
