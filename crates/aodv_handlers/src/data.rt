//! Data: given to the node, and on their way through it (AWN's NEWPKT and PKT; RFC 3561, section
//! 6.11).
ghost use Rattle.std.specs.Prelude.{◌≡◌, ◌≢◌, ◌<◌, ℕ, ◌==◌, ◌&&◌, ◌||◌, not, if◌then◌else◌, true, false, length, slice_index, Option, Some, None};
ghost use Rattle.mesh_base.specs.Members.{NodeIds};
ghost use Rattle.aodv_model.specs.Cores.{New};
ghost use Rattle.aodv_model.specs.Quality.{is_val};
ghost use Rattle.aodv_model.specs.Handlers.{is_error, on_new, on_pkt, data_error as the_data_error, is_empty as no_node};
ghost use Rattle.aodv_model.specs.Fullness.{turn_full};
ghost use Rattle.aodv_model.specs.Soundness.{IsDatum, IsMessageInMesh};
ghost use Rattle.aodv_wire.specs.declared.message.Message.TheVariants.{Parcel as a_parcel};
ghost use Rattle.aodv_meaning.specs.Meaning.{index, stranger};
ghost use Rattle.aodv_meaning.specs.Sent.{IsPacket};
ghost use Rattle.aodv_handlers.specs.Shown.{core_of, IsInOrder, parcel_of};
ghost use Rattle.aodv_meaning.specs.Effects.{cast_of};
ghost use Rattle.aodv_handlers.specs.Made.{Reacts};

use crate::cores::Core;
use crate::errors::{is_broadcast, is_empty};
use crate::messages::Datum;
use crate::routes::{has_route, next_hop};
use crate::unicast::send_datum;
use aodv_model::{Entry, Flag};
use aodv_table::Table;
use aodv_wire::{DataView, write_rerr};
use mesh_base::{Bytes, Cast, Effect, Full, Mesh, NodeSet, Packet, Variant};

/// Takes a datum given to the node. If it is for the node itself, it is returned to be delivered;
/// otherwise it waits.
#[tactic(auto, unfolding(aodv_model::specs::Handlers::on_new))]
pub fn new_packet<T: Table>(core: &mut Core<T>, dest: usize, body: Bytes) -> Option<Bytes>
    requires datum { IsDatum body }
    requires room { dest ≢ core.old.me → 0 < slice_index core.old.waiting.rooms dest }
    ensures result { result ≡ (if dest == core.old.me then Some body else None) }
    ensures core { let c = core_of T.entries core.old in
        core_of T.entries core.new ≡ (on_new c body dest).core }
    ensures free { let c = core_of T.entries core.old in
        (range : NodeIds) → turn_full c range (New body dest) ≡ None }
    ensures order { (size : ℕ) → IsInOrder T.nodes T.entries size core.old
        → IsInOrder T.nodes T.entries size core.new }
    ensures table { core.new.table ≡ core.old.table }
    ensures asked { core.new.asked ≡ core.old.asked }
{
    if dest == core.me {
        return Some(body);
    }
    core.waiting.add(dest, body);
    None
}

// Whether data that can't go on by this entry make an error: they do if the entry is invalid and
// has precursors, or if it is invalid and errors are broadcast.
fn makes_an_error(variant: Variant, e: &Entry) -> bool
    ensures { result ≡ (not (is_val e.now.flag) && (is_error variant || not (no_node e.now.pre))) }
{
    e.flag == Flag::Inv && (is_broadcast(variant) || !is_empty(&e.pre))
}

// The error for data to d that can't go on, if d's entry is invalid: to all nodes in range, or to
// d's precursors.
#[tactic(auto, unfolding(aodv_model::specs::Handlers::data_error))]
fn data_error<T: Table>(core: &Core<T>, mesh: &Mesh, d: usize, out: &mut Packet) -> Cast
    requires nodes { T.nodes core.now.table ≡ length mesh.now }
    requires below { d < length mesh.now }
    ensures cast { result ≡ cast_of (the_data_error (core_of T.entries core.now) d) }
    ensures packet { let c = core_of T.entries core.now in
        IsPacket mesh.now out.new.items (the_data_error c d) }
{
    match core.table.get(d) {
        Some(e) if makes_an_error(core.variant, &e) => {
            write_rerr(&[(mesh.at(d), e.dsn)], out);
            if is_broadcast(core.variant) {
                Cast::All
            } else {
                Cast::Many(e.pre)
            }
        }
        _ => {
            out.clear();
            Cast::Nothing
        }
    }
}

/// A datum on its way: delivered if it is for this node, sent on if there is a valid route, and
/// otherwise lost. It is lost too if the next hop is out of range.
#[tactic(auto, unfolding(aodv_model::specs::Handlers::on_pkt))]
#[inline(always)]
pub fn take_datum<T: Table>(
    core: &mut Core<T>,
    mesh: &Mesh,
    range: &NodeSet,
    m: &Datum<'_>,
    out: &mut Packet,
) -> Result<Effect, Full>
    requires order { IsInOrder T.nodes T.entries (length mesh.now) core.old }
    requires says { IsMessageInMesh (length mesh.now) (parcel_of m.now) }
    ensures does { let dip = m.now.dip in let oip = m.now.oip in
        Reacts T.entries mesh.now (λ c. on_pkt c range.now m.now.body.now dip oip)
        core.old result core.new out.new.items }
    ensures order { IsInOrder T.nodes T.entries (length mesh.now) core.new }
    ensures rooms { T.rooms core.new.table ≡ T.rooms core.old.table }
    ensures asked { core.new.asked ≡ core.old.asked }
{
    if m.dip == core.me {
        out.clear();
        return Ok(Effect {
            deliver: true,
            lost: false,
            broken: None,
            cast: Cast::Nothing,
        });
    }
    if !has_route(&core.table, m.dip) {
        let cast = data_error(core, mesh, m.dip, out);
        return Ok(Effect {
            deliver: false,
            lost: true,
            broken: None,
            cast,
        });
    }
    let towards = next_hop(&core.table, m.dip);
    let mut effect = send_datum(core, mesh, range, towards, m, out)?;
    effect.lost = effect.broken.is_some();
    Ok(effect)
}

/// Does what `take_datum` does, with a data packet that names nodes by their addresses.
pub fn on_data<T: Table>(
    core: &mut Core<T>,
    mesh: &Mesh,
    range: &NodeSet,
    m: &DataView<'_>,
    out: &mut Packet,
) -> Result<Effect, Full>
    requires order { IsInOrder T.nodes T.entries (length mesh.now) core.old }
    requires known { stranger mesh.now (a_parcel m.now) ≡ None }
    requires datum { IsDatum m.now.body }
    ensures does { let dip = index mesh.now m.now.dip in let oip = index mesh.now m.now.oip in
        Reacts T.entries mesh.now (λ c. on_pkt c range.now m.now.body dip oip)
        core.old result core.new out.new.items }
    ensures order { IsInOrder T.nodes T.entries (length mesh.now) core.new }
    ensures rooms { T.rooms core.new.table ≡ T.rooms core.old.table }
    ensures asked { core.new.asked ≡ core.old.asked }
{
    let datum = Datum {
        dip: mesh.index_in(m.dip()),
        oip: mesh.index_in(m.oip()),
        body: m.body(),
    };
    take_datum(core, mesh, range, &datum, out)
}
