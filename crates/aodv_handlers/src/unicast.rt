//! Unicasts, which may find their receiver out of range (AWN's conditional unicast).
ghost use Rattle.std.specs.Prelude.{◌≡◌, ◌<◌, ◌≤◌, false, length};
ghost use Rattle.aodv_model.specs.Cores.{Rrep as a_reply};
ghost use Rattle.aodv_model.specs.Soundness.{IsMessageInMesh};
ghost use Rattle.aodv_model.specs.Handlers.{unicast, broken_by, link_broken as broken};
ghost use Rattle.aodv_handlers.specs.Shown.{IsInOrder, parcel_of, reply_of};
ghost use Rattle.aodv_handlers.specs.Made.{Reacts};

use crate::cores::Core;
use crate::errors::link_broken;
use crate::messages::{Datum, Reply};
use aodv_table::Table;
use aodv_wire::{Rrep, write_data, write_rrep};
use mesh_base::{Cast, Effect, Full, Mesh, NodeSet, Packet};

/// The effect of a cast alone.
pub(crate) fn casting(cast: Cast) -> Effect
    ensures { result ≡ record { deliver = false; lost = false; broken = None; cast = cast } }
{
    Effect {
        deliver: false,
        lost: false,
        broken: None,
        cast,
    }
}

/// A unicast to y has failed, and the link to y is broken.
pub(crate) fn fail<T: Table>(
    core: &mut Core<T>,
    mesh: &Mesh,
    y: usize,
    out: &mut Packet,
) -> Result<Effect, Full>
    requires order { IsInOrder T.nodes T.entries (length mesh.now) core.old }
    ensures does { Reacts T.entries mesh.now (λ c. broken_by y (broken c y))
        core.old result core.new out.new.items }
    ensures order { IsInOrder T.nodes T.entries (length mesh.now) core.new }
    ensures rooms { T.rooms core.new.table ≡ T.rooms core.old.table }
    ensures asked { core.new.asked ≡ core.old.asked }
{
    let cast = link_broken(core, mesh, y, out)?;
    Ok(Effect {
        deliver: false,
        lost: false,
        broken: Some(y),
        cast,
    })
}

/// Sends a reply to y.
#[tactic(auto, unfolding(aodv_model::specs::Handlers::unicast))]
pub(crate) fn send_reply<T: Table>(
    core: &mut Core<T>,
    mesh: &Mesh,
    range: &NodeSet,
    y: usize,
    m: Reply,
    out: &mut Packet,
) -> Result<Effect, Full>
    requires order { IsInOrder T.nodes T.entries (length mesh.now) core.old }
    requires dip { m.dip < length mesh.now }
    requires oip { m.oip < length mesh.now }
    requires dsn { 1 ≤ m.dsn }
    ensures does { Reacts T.entries mesh.now (λ c. unicast c (a_reply (reply_of m)) y range.now)
        core.old result core.new out.new.items }
    ensures order { IsInOrder T.nodes T.entries (length mesh.now) core.new }
    ensures rooms { T.rooms core.new.table ≡ T.rooms core.old.table }
    ensures asked { core.new.asked ≡ core.old.asked }
{
    if !range.has(y) {
        return fail(core, mesh, y, out);
    }
    let reply = Rrep {
        hops: m.hops,
        dip: mesh.at(m.dip),
        dsn: m.dsn,
        oip: mesh.at(m.oip),
    };
    write_rrep(&reply, out);
    Ok(casting(Cast::One(y)))
}

/// Sends a datum on its way to y.
#[tactic(auto, unfolding(aodv_model::specs::Handlers::unicast))]
pub(crate) fn send_datum<T: Table>(
    core: &mut Core<T>,
    mesh: &Mesh,
    range: &NodeSet,
    y: usize,
    m: &Datum<'_>,
    out: &mut Packet,
) -> Result<Effect, Full>
    requires order { IsInOrder T.nodes T.entries (length mesh.now) core.old }
    requires says { IsMessageInMesh (length mesh.now) (parcel_of m.now) }
    ensures does { Reacts T.entries mesh.now (λ c. unicast c (parcel_of m.now) y range.now)
        core.old result core.new out.new.items }
    ensures order { IsInOrder T.nodes T.entries (length mesh.now) core.new }
    ensures rooms { T.rooms core.new.table ≡ T.rooms core.old.table }
    ensures asked { core.new.asked ≡ core.old.asked }
{
    if !range.has(y) {
        return fail(core, mesh, y, out);
    }
    write_data(mesh.at(m.dip), mesh.at(m.oip), m.body, out);
    Ok(casting(Cast::One(y)))
}
