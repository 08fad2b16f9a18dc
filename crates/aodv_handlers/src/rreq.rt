//! Route requests (AWN's RREQ; RFC 3561, sections 6.5 and 6.6).
ghost use Rattle.std.specs.Prelude.{◌≡◌, ◌≢◌, ◌<◌, ◌≤◌, true, false, length, Some, None, Ok, IfSome, is_some, max, slice_index};
ghost use Rattle.std.specs.FinMap as maps;
ghost use Rattle.std.specs.FinSet as sets;
ghost use Rattle.mesh_base.specs.Meshes.{Nodes};
ghost use Rattle.mesh_base.specs.Members.{NodeIds};
ghost use Rattle.aodv_model.specs.Cores.{RouteRequest, Rreq as a_request, Heard, has_seen as is_seen};
ghost use Rattle.aodv_model.specs.Soundness.{IsMessageInMesh};
ghost use Rattle.aodv_model.specs.Handlers.{key_of, reply_for_self as own_reply, reply_from_table as table_reply, forward_request as forwarded, on_new_rreq, can_answer};
ghost use Rattle.aodv_wire.specs.declared.message.Message.TheVariants.{Rreq as a_rreq};
ghost use Rattle.aodv_meaning.specs.Meaning.{index, request_in, stranger};
ghost use Rattle.aodv_handlers.specs.Shown.{core_of, IsInOrder, request_of};
ghost use Rattle.aodv_handlers.specs.Made.{Reacts, TakesTurn};

use crate::cores::Core;
use crate::messages::{Reply, Request};
use crate::routes::{join_precursor, next_hop, note_neighbour, number, route_entry};
use crate::unicast::{casting, send_reply};
use aodv_model::{Entry, Flag, Known};
use aodv_table::Table;
use aodv_wire::{Rreq, write_rreq};
use mesh_base::{Cast, Effect, Full, Mesh, NodeSet, Packet, Variant};

fn larger(a: u32, b: u32) -> u32
    ensures { result ≡ max a b }
{
    if a < b { b } else { a }
}

// The node is the one asked for, and replies. Its own number becomes the one wanted, if that is
// larger.
#[tactic(auto, unfolding(aodv_model::specs::Handlers::reply_for_self))]
#[inline(always)]
fn reply_for_self<T: Table>(
    core: &mut Core<T>,
    mesh: &Mesh,
    range: &NodeSet,
    m: &Request,
    out: &mut Packet,
) -> Result<Effect, Full>
    requires order { IsInOrder T.nodes T.entries (length mesh.now) core.old }
    requires says { IsMessageInMesh (length mesh.now) (a_request (request_of m.now)) }
    ensures does { Reacts T.entries mesh.now (λ c. own_reply c range.now (request_of m.now))
        core.old result core.new out.new.items }
    ensures order { IsInOrder T.nodes T.entries (length mesh.now) core.new }
    ensures rooms { T.rooms core.new.table ≡ T.rooms core.old.table }
    ensures asked { core.new.asked ≡ core.old.asked }
{
    let sn = core.sn;
    core.sn = larger(sn, m.dsn);
    let towards = next_hop(&core.table, m.oip);
    let reply = Reply {
        hops: 0,
        dip: m.dip,
        dsn: core.sn,
        oip: m.oip,
    };
    match send_reply(core, mesh, range, towards, reply, out) {
        Ok(effect) => Ok(effect),
        Err(full) => {
            core.sn = sn;
            Err(full)
        }
    }
}

// The entry of the node that is asked for, if this node may answer with it.
fn route_to_answer_with<T: Table>(core: &Core<T>, m: &Request) -> Option<Entry>
    requires { m.now.dip < T.nodes core.now.table }
    ensures can { is_some result ≡ can_answer (core_of T.entries core.now) (request_of m.now) }
    ensures route { IfSome result (λ e. maps.get (T.entries core.now.table) m.now.dip ≡ Some e) }
    ensures room { IfSome result (λ _. sets.contains (T.rooms core.now.table) m.now.dip ≡ true) }
{
    let route = core.table.get(m.dip)?;
    if route.flag == Flag::Val && m.dsn <= route.dsn && route.dsk == Known::Kno {
        Some(route)
    } else {
        None
    }
}

// The node has a route to the node asked for, and answers in its place.
#[tactic(auto, unfolding(aodv_model::specs::Handlers::reply_from_table))]
#[inline(always)]
fn reply_from_table<T: Table>(
    core: &mut Core<T>,
    mesh: &Mesh,
    range: &NodeSet,
    from: usize,
    m: &Request,
    route: Entry,
    out: &mut Packet,
) -> Result<Effect, Full>
    requires order { IsInOrder T.nodes T.entries (length mesh.now) core.old }
    requires says { IsMessageInMesh (length mesh.now) (a_request (request_of m.now)) }
    requires from { from < length mesh.now }
    requires room_dip { sets.contains (T.rooms core.old.table) m.now.dip ≡ true }
    requires room_oip { sets.contains (T.rooms core.old.table) m.now.oip ≡ true }
    requires route { maps.get (T.entries core.old.table) m.now.dip ≡ Some route }
    requires can { can_answer (core_of T.entries core.old) (request_of m.now) ≡ true }
    ensures does { Reacts T.entries mesh.now (λ c. table_reply c range.now from (request_of m.now))
        core.old result core.new out.new.items }
    ensures order { IsInOrder T.nodes T.entries (length mesh.now) core.new }
    ensures rooms { T.rooms core.new.table ≡ T.rooms core.old.table }
    ensures asked { core.new.asked ≡ core.old.asked }
{
    // This tells the prover that a mesh has at most 200 nodes, so each of them can be in a set of
    // nodes.
    let _few = mesh.len();
    let kept_oip = core.table.get(m.oip);
    let towards = next_hop(&core.table, m.oip);
    join_precursor(&mut core.table, m.dip, from);
    join_precursor(&mut core.table, m.oip, route.next);
    let reply = Reply {
        hops: route.hops,
        dip: m.dip,
        dsn: route.dsn,
        oip: m.oip,
    };
    match send_reply(core, mesh, range, towards, reply, out) {
        Ok(effect) => Ok(effect),
        Err(full) => {
            core.table.put(m.oip, kept_oip);
            core.table.put(m.dip, Some(route));
            Err(full)
        }
    }
}

// The node passes the request on.
#[tactic(auto, unfolding(aodv_model::specs::Handlers::forward_request))]
#[inline(always)]
fn forward_request<T: Table>(core: &Core<T>, mesh: &Mesh, m: &Request, out: &mut Packet) -> Effect
    requires order { IsInOrder T.nodes T.entries (length mesh.now) core.now }
    requires says { IsMessageInMesh (length mesh.now) (a_request (request_of m.now)) }
    requires hops { m.now.hops < 255 }
    ensures { Reacts T.entries mesh.now (λ c. forwarded c (request_of m.now))
        core.now (Ok result) core.now out.new.items }
{
    let mine = number(&core.table, m.dip);
    let request = Rreq {
        hops: m.hops + 1,
        id: m.id,
        dip: mesh.at(m.dip),
        dsn: larger(mine, m.dsn),
        known: m.known,
        oip: mesh.at(m.oip),
        osn: m.osn,
    };
    write_rreq(&request, out);
    casting(Cast::All)
}

// A new request, in the core after its updates.
#[tactic(auto, unfolding(aodv_model::specs::Handlers::on_new_rreq))]
#[inline(always)]
fn on_new<T: Table>(
    core: &mut Core<T>,
    mesh: &Mesh,
    range: &NodeSet,
    from: usize,
    m: &Request,
    out: &mut Packet,
) -> Result<Effect, Full>
    requires order { IsInOrder T.nodes T.entries (length mesh.now) core.old }
    requires says { IsMessageInMesh (length mesh.now) (a_request (request_of m.now)) }
    requires from { from < length mesh.now }
    requires hops { m.now.hops < 255 }
    requires room { sets.contains (T.rooms core.old.table) m.now.oip ≡ true }
    ensures does { Reacts T.entries mesh.now (λ c. on_new_rreq c range.now from (request_of m.now))
        core.old result core.new out.new.items }
    ensures order { IsInOrder T.nodes T.entries (length mesh.now) core.new }
    ensures rooms { T.rooms core.new.table ≡ T.rooms core.old.table }
    ensures asked { core.new.asked ≡ core.old.asked }
{
    if m.dip == core.me {
        return reply_for_self(core, mesh, range, m, out);
    }
    match route_to_answer_with(core, m) {
        Some(route) => reply_from_table(core, mesh, range, from, m, route, out),
        None => Ok(forward_request(core, mesh, m, out)),
    }
}

// What a request is recognized by, besides its originator: its id, or in the variant `Number` its
// originator's number.
fn mark_of(variant: Variant, m: &Request) -> u32
    ensures { key_of variant (request_of m.now) ≡ (m.now.oip, result) }
{
    match variant {
        Variant::Number => m.osn,
        _ => m.id,
    }
}

/// Whether the node has seen this request before.
#[inline(always)]
pub fn has_seen<T: Table>(core: &Core<T>, m: &Request) -> bool
    requires { m.now.oip < length core.now.asked.rooms }
    ensures { result ≡ is_seen core.now.asked.pairs (key_of core.now.variant (request_of m.now)) }
{
    core.asked.has(m.oip, mark_of(core.variant, m))
}

/// A route request from a neighbour, which the node has seen before: it learns only that the
/// neighbour is there.
#[inline(always)]
pub fn take_seen_request<T: Table>(core: &mut Core<T>, from: usize, out: &mut Packet) -> Effect
    requires from { from < T.nodes core.old.table }
    requires other { from ≢ core.old.me }
    requires order { IsInOrder T.nodes T.entries (T.nodes core.old.table) core.old }
    requires row_from { sets.contains (T.rooms core.old.table) from ≡ true }
    ensures does { (mesh : Nodes) (range : NodeIds) (m : RouteRequest)
        → is_seen core.old.asked.pairs (key_of core.old.variant m) ≡ true
        → TakesTurn T.entries mesh range (Heard from (a_request m)) core.old (Ok result) core.new
        out.new.items }
    ensures order { IsInOrder T.nodes T.entries (T.nodes core.old.table) core.new }
    ensures rooms { T.rooms core.new.table ≡ T.rooms core.old.table }
{
    note_neighbour(&mut core.table, from);
    out.clear();
    casting(Cast::Nothing)
}

/// A route request from a neighbour, which the node hasn't seen before.
#[inline(always)]
pub fn take_new_request<T: Table>(
    core: &mut Core<T>,
    mesh: &Mesh,
    range: &NodeSet,
    from: usize,
    m: &Request,
    out: &mut Packet,
) -> Result<Effect, Full>
    requires order { IsInOrder T.nodes T.entries (length mesh.now) core.old }
    requires says { IsMessageInMesh (length mesh.now) (a_request (request_of m.now)) }
    requires from { from < length mesh.now }
    requires other { from ≢ core.old.me }
    requires row_from { sets.contains (T.rooms core.old.table) from ≡ true }
    requires row_oip { sets.contains (T.rooms core.old.table) m.now.oip ≡ true }
    requires new { let key = key_of core.old.variant (request_of m.now) in
        is_seen core.old.asked.pairs key ≡ false }
    requires asked { 0 < slice_index core.old.asked.rooms m.now.oip }
    ensures does { let item = Heard from (a_request (request_of m.now)) in
        TakesTurn T.entries mesh.now range.now item core.old result core.new out.new.items }
    ensures order { IsInOrder T.nodes T.entries (length mesh.now) core.new }
    ensures rooms { T.rooms core.new.table ≡ T.rooms core.old.table }
{
    if m.hops == 255 {
        return Err(Full::Hops);
    }
    let mark = mark_of(core.variant, m);
    let kept_from = core.table.get(from);
    let kept_oip = core.table.get(m.oip);
    note_neighbour(&mut core.table, from);
    core.table.update(m.oip, route_entry(m.osn, m.hops, from));
    match on_new(core, mesh, range, from, m, out) {
        Ok(effect) => {
            core.asked.insert(m.oip, mark);
            Ok(effect)
        }
        Err(full) => {
            core.table.put(m.oip, kept_oip);
            core.table.put(from, kept_from);
            Err(full)
        }
    }
}

/// A route request that names nodes by their addresses, whether it was seen before or not.
pub fn on_rreq<T: Table>(
    core: &mut Core<T>,
    mesh: &Mesh,
    range: &NodeSet,
    from: usize,
    m: &Rreq,
    out: &mut Packet,
) -> Result<Effect, Full>
    requires order { IsInOrder T.nodes T.entries (length mesh.now) core.old }
    requires known { stranger mesh.now (a_rreq m.now) ≡ None }
    requires osn { 1 ≤ m.now.osn }
    requires from { from < length mesh.now }
    requires other { from ≢ core.old.me }
    requires row_from { sets.contains (T.rooms core.old.table) from ≡ true }
    requires row_oip { sets.contains (T.rooms core.old.table) (index mesh.now m.now.oip) ≡ true }
    requires asked { let key = key_of core.old.variant (request_in mesh.now m.now) in
        is_seen core.old.asked.pairs key ≡ false
        → 0 < slice_index core.old.asked.rooms (index mesh.now m.now.oip) }
    ensures does { let item = Heard from (a_request (request_in mesh.now m.now)) in
        TakesTurn T.entries mesh.now range.now item core.old result core.new out.new.items }
    ensures order { IsInOrder T.nodes T.entries (length mesh.now) core.new }
    ensures rooms { T.rooms core.new.table ≡ T.rooms core.old.table }
{
    let request = Request {
        hops: m.hops,
        id: m.id,
        dip: mesh.index_in(m.dip),
        dsn: m.dsn,
        known: m.known,
        oip: mesh.index_in(m.oip),
        osn: m.osn,
    };
    if has_seen(core, &request) {
        return Ok(take_seen_request(core, from, out));
    }
    take_new_request(core, mesh, range, from, &request, out)
}
