//! Route replies (AWN's RREP; RFC 3561, section 6.7).
ghost use Rattle.std.specs.Prelude.{◌≡◌, ◌≢◌, ◌<◌, ◌≤◌, Bool, ◌||◌, not, true, length, Some, None, IfSome};
ghost use Rattle.std.specs.FinSet as sets;
ghost use Rattle.mesh_base.specs.Members.{NodeIds};
ghost use Rattle.mesh_base.specs.declared.events.Variant.TheVariants as variants;
ghost use Rattle.aodv_model.specs.Tables.{in_kD, sqn};
ghost use Rattle.aodv_model.specs.Cores.{Rrep as a_reply, Heard};
ghost use Rattle.aodv_model.specs.Soundness.{IsMessageInMesh};
ghost use Rattle.aodv_model.specs.Handlers.{reply_on};
ghost use Rattle.aodv_wire.specs.declared.message.Message.TheVariants.{Rrep as a_rrep};
ghost use Rattle.aodv_meaning.specs.Meaning.{index, reply_in, stranger};
ghost use Rattle.aodv_handlers.specs.Shown.{core_of, IsInOrder, reply_of};
ghost use Rattle.aodv_handlers.specs.Made.{Reacts, TakesTurn};
ghost use Rattle.aodv_handlers.specs.Parts.{IsNumberedAs, end_of_rrep, pass_on as passed_on, passing};

use crate::cores::Core;
use crate::messages::Reply;
use crate::routes::{has_route, join_precursor, next_hop, note_neighbour, route_entry};
use crate::unicast::{casting, send_reply};
use aodv_model::Flag;
use aodv_table::Table;
use aodv_wire::Rrep;
use mesh_base::{Cast, Effect, Full, Mesh, NodeSet, Packet, Variant};

// This reply goes on towards its originator.
#[tactic(auto, unfolding(crate::specs::Parts::pass_on))]
#[inline(always)]
fn pass_on<T: Table>(
    core: &mut Core<T>,
    mesh: &Mesh,
    range: &NodeSet,
    m: Reply,
    out: &mut Packet,
) -> Result<Effect, Full>
    requires order { IsInOrder T.nodes T.entries (length mesh.now) core.old }
    requires dip { m.dip < length mesh.now }
    requires oip { m.oip < length mesh.now }
    requires dsn { 1 ≤ m.dsn }
    requires entry { in_kD (T.entries core.old.table) m.dip ≡ true }
    ensures does { Reacts T.entries mesh.now (λ c. passed_on c range.now (reply_of m))
        core.old result core.new out.new.items }
    ensures order { IsInOrder T.nodes T.entries (length mesh.now) core.new }
    ensures rooms { T.rooms core.new.table ≡ T.rooms core.old.table }
    ensures asked { core.new.asked ≡ core.old.asked }
{
    // This tells the prover that a mesh has at most 200 nodes, so each of them can be in a set of
    // nodes.
    let _few = mesh.len();
    let towards = next_hop(&core.table, m.oip);
    let onward = next_hop(&core.table, m.dip);
    let kept_dip = core.table.get(m.dip);
    let kept_onward = core.table.get(onward);
    join_precursor(&mut core.table, m.dip, towards);
    join_precursor(&mut core.table, onward, towards);
    match send_reply(core, mesh, range, towards, m, out) {
        Ok(effect) => Ok(effect),
        Err(full) => {
            core.table.put(onward, kept_onward);
            core.table.put(m.dip, kept_dip);
            Err(full)
        }
    }
}

// What the node's own entry says in place of the reply, if that entry is valid.
fn own_reply<T: Table>(core: &Core<T>, m: Reply) -> Option<Reply>
    requires dip { m.dip < T.nodes core.now.table }
    requires number { 1 ≤ sqn (T.entries core.now.table) m.dip }
    ensures does { let c = core_of T.entries core.now in (stale : Bool) (range : NodeIds) →
        reply_on variants.Reply c stale range (reply_of m) ≡ passing c range result }
    ensures same { IfSome result (IsNumberedAs m) }
{
    match core.table.get(m.dip) {
        Some(e) if e.flag == Flag::Val => Some(Reply {
            hops: e.hops,
            dip: m.dip,
            dsn: e.dsn,
            oip: m.oip,
        }),
        _ => None,
    }
}

// The reply that goes on after m was heard, if one does, in the core after its updates.
fn reply_to_pass_on<T: Table>(core: &Core<T>, changed: bool, m: Reply) -> Option<Reply>
    requires dip { m.dip < T.nodes core.now.table }
    requires oip { m.oip < T.nodes core.now.table }
    requires dsn { 1 ≤ m.dsn }
    requires hops { m.hops < 255 }
    requires number { 1 ≤ sqn (T.entries core.now.table) m.dip }
    ensures does { let c = core_of T.entries core.now in (range : NodeIds) →
        end_of_rrep c (not changed) range (reply_of m) ≡ passing c range result }
    ensures same { IfSome result (IsNumberedAs m) }
{
    if m.oip == core.me || !has_route(&core.table, m.oip) {
        return None;
    }
    match core.variant {
        Variant::Reply => own_reply(core, m),
        _ if changed => Some(Reply {
            hops: m.hops + 1,
            dip: m.dip,
            dsn: m.dsn,
            oip: m.oip,
        }),
        _ => None,
    }
}

/// A route reply from a neighbour. It ends here if the node asked for it, if the node has no valid
/// route back to the one that did, or if it teaches nothing. In the variant `Reply` the last
/// condition is another: it ends here if the node has no valid route to the destination, and
/// otherwise goes on as that route says.
#[inline(always)]
pub fn take_reply<T: Table>(
    core: &mut Core<T>,
    mesh: &Mesh,
    range: &NodeSet,
    from: usize,
    m: &Reply,
    out: &mut Packet,
) -> Result<Effect, Full>
    requires order { IsInOrder T.nodes T.entries (length mesh.now) core.old }
    requires says { IsMessageInMesh (length mesh.now) (a_reply (reply_of m.now)) }
    requires from { from < length mesh.now }
    requires other { from ≢ core.old.me }
    requires row_from { sets.contains (T.rooms core.old.table) from ≡ true }
    requires row_dip { sets.contains (T.rooms core.old.table) m.now.dip ≡ true }
    ensures does { let item = Heard from (a_reply (reply_of m.now)) in
        TakesTurn T.entries mesh.now range.now item core.old result core.new out.new.items }
    ensures order { IsInOrder T.nodes T.entries (length mesh.now) core.new }
    ensures rooms { T.rooms core.new.table ≡ T.rooms core.old.table }
    ensures asked { core.new.asked ≡ core.old.asked }
{
    if m.hops == 255 {
        return Err(Full::Hops);
    }
    let kept_from = core.table.get(from);
    let kept_dip = core.table.get(m.dip);
    note_neighbour(&mut core.table, from);
    let changed = core.table.update(m.dip, route_entry(m.dsn, m.hops, from));
    let Some(reply) = reply_to_pass_on(core, changed, *m) else {
        out.clear();
        return Ok(casting(Cast::Nothing));
    };
    match pass_on(core, mesh, range, reply, out) {
        Ok(effect) => Ok(effect),
        Err(full) => {
            core.table.put(m.dip, kept_dip);
            core.table.put(from, kept_from);
            Err(full)
        }
    }
}

/// Does what `take_reply` does, with a reply that names nodes by their addresses.
pub fn on_rrep<T: Table>(
    core: &mut Core<T>,
    mesh: &Mesh,
    range: &NodeSet,
    from: usize,
    m: &Rrep,
    out: &mut Packet,
) -> Result<Effect, Full>
    requires order { IsInOrder T.nodes T.entries (length mesh.now) core.old }
    requires known { stranger mesh.now (a_rrep m.now) ≡ None }
    requires dsn { 1 ≤ m.now.dsn }
    requires from { from < length mesh.now }
    requires other { from ≢ core.old.me }
    requires row_from { sets.contains (T.rooms core.old.table) from ≡ true }
    requires row_dip { sets.contains (T.rooms core.old.table) (index mesh.now m.now.dip) ≡ true }
    ensures does { let item = Heard from (a_reply (reply_in mesh.now m.now)) in
        TakesTurn T.entries mesh.now range.now item core.old result core.new out.new.items }
    ensures order { IsInOrder T.nodes T.entries (length mesh.now) core.new }
    ensures rooms { T.rooms core.new.table ≡ T.rooms core.old.table }
    ensures asked { core.new.asked ≡ core.old.asked }
{
    let reply = Reply {
        hops: m.hops,
        dip: mesh.index_in(m.dip),
        dsn: m.dsn,
        oip: mesh.index_in(m.oip),
    };
    take_reply(core, mesh, range, from, &reply, out)
}
