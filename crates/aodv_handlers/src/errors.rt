//! Route errors, and broken links (RFC 3561, section 6.11).
ghost use Rattle.std.specs.Prelude.{◌≡◌, ◌<◌, ◌≤◌, length};
ghost use Rattle.std.specs.FinMap as maps;
ghost use Rattle.aodv_model.specs.Tables.{dests_of, precs};
ghost use Rattle.aodv_model.specs.Cores.{Rerr};
ghost use Rattle.aodv_model.specs.Handlers.{is_empty as no_node, is_error, precs_of, error_cast as the_error_cast, retract as retracted};
ghost use Rattle.aodv_model.specs.Soundness.{AreDestsBelow};
ghost use Rattle.aodv_meaning.specs.Sent.{IsSent, IsPacket};
ghost use Rattle.aodv_handlers.specs.Shown.{core_of, IsInOrder};
ghost use Rattle.aodv_meaning.specs.Effects.{cast_of};
ghost use Rattle.aodv_handlers.specs.Made.{Breaks};
ghost use Rattle.aodv_handlers.specs.Parts.{is_named, named_dests};

use crate::cores::Core;
use aodv_model::Dests;
use aodv_table::Table;
use aodv_wire::write_rerr;
use arrayvec::ArrayVec;
use mesh_base::{Addr, Cast, Full, MOST_NODES, Mesh, NodeSet, Packet, Variant};

/// The precursors of d.
pub(crate) fn precursors<T: Table>(table: &T, d: usize) -> NodeSet
    requires { d < T.nodes table.now }
    ensures { result ≡ precs (T.entries table.now) d }
{
    match table.get(d) {
        Some(e) => e.pre,
        None => NodeSet::new(),
    }
}

/// Whether no node is in the set.
pub(crate) fn is_empty(s: &NodeSet) -> bool
    ensures { result ≡ no_node s.now }
{
    s.is_empty()
}

// The precursors of all these destinations.
fn all_precursors<T: Table>(table: &T, dests: &Dests) -> NodeSet
    requires { AreDestsBelow (T.nodes table.now) dests.now }
    ensures { result ≡ precs_of (T.entries table.now) dests.now }
{
    let mut all = NodeSet::new();
    for k in 0..dests.len() {
        let (d, _) = dests.pair(k);
        all.join(&precursors(table, d));
    }
    all
}

/// Whether route errors are broadcast, and name every destination.
pub(crate) fn is_broadcast(variant: Variant) -> bool
    ensures { result ≡ is_error variant }
{
    matches!(variant, Variant::Error)
}

// Whether a route error names d, if d's route becomes invalid.
fn is_named<T: Table>(variant: Variant, table: &T, d: usize) -> bool
    requires { d < T.nodes table.now }
    ensures { result ≡ is_named variant (T.entries table.now) d }
{
    is_broadcast(variant) || !is_empty(&precursors(table, d))
}

// Writes the route error of these destinations. It names at least one of them.
fn write_error<T: Table>(variant: Variant, table: &T, mesh: &Mesh, dests: &Dests, out: &mut Packet)
    requires nodes { T.nodes table.now ≡ length mesh.now }
    requires below { AreDestsBelow (length mesh.now) dests.now }
    requires some { 1 ≤ maps.len (named_dests variant (T.entries table.now) dests.now) }
    ensures { IsSent mesh.now out.new.items
        (Rerr (named_dests variant (T.entries table.now) dests.now)) }
{
    // This tells the prover that the addresses of a mesh rise, so pairs in the order of their nodes
    // are in the order of their addresses.
    let _rising = mesh.len();
    let mut pairs: ArrayVec<(Addr, u32), MOST_NODES> = ArrayVec::new();
    for k in 0..dests.len() {
        let (d, number) = dests.pair(k);
        if is_named(variant, table, d) {
            pairs.push((mesh.at(d), number));
        }
    }
    write_rerr(pairs.as_slice(), out);
}

// The route error of these destinations: to all nodes in range, or to all their precursors.
#[tactic(auto, unfolding(aodv_model::specs::Handlers::error_cast))]
fn error_cast<T: Table>(
    variant: Variant,
    table: &T,
    mesh: &Mesh,
    dests: &Dests,
    out: &mut Packet,
) -> Cast
    requires nodes { T.nodes table.now ≡ length mesh.now }
    requires below { AreDestsBelow (length mesh.now) dests.now }
    ensures cast { result ≡ cast_of (the_error_cast variant (T.entries table.now) dests.now) }
    ensures packet { let cast = the_error_cast variant (T.entries table.now) dests.now in
        IsPacket mesh.now out.new.items cast }
{
    if is_broadcast(variant) {
        if dests.is_empty() {
            out.clear();
            return Cast::Nothing;
        }
        write_error(variant, table, mesh, dests, out);
        return Cast::All;
    }
    let to = all_precursors(table, dests);
    if is_empty(&to) {
        out.clear();
        return Cast::Nothing;
    }
    write_error(variant, table, mesh, dests, out);
    Cast::Many(to)
}

// The destinations alone. They are nodes of the mesh.
fn members(mesh: &Mesh, dests: &Dests) -> NodeSet
    requires { AreDestsBelow (length mesh.now) dests.now }
    ensures { result ≡ dests_of dests.now }
{
    let nodes = mesh.len();
    let mut found = NodeSet::new();
    for k in 0..dests.len() {
        let (d, _) = dests.pair(k);
        prove!(d < nodes);
        found.add(d);
    }
    found
}

/// Makes the routes to these destinations invalid: their entries get the numbers stated, data that
/// wait for them need a request, and a route error is written if it would name a destination.
#[tactic(auto, unfolding(aodv_model::specs::Handlers::retract))]
pub(crate) fn retract<T: Table>(
    core: &mut Core<T>,
    mesh: &Mesh,
    dests: &Dests,
    out: &mut Packet,
) -> Cast
    requires nodes { T.nodes core.old.table ≡ length mesh.now }
    requires below { AreDestsBelow (length mesh.now) dests.now }
    ensures core { let did = retracted (core_of T.entries core.old) dests.now in
        core_of T.entries core.new ≡ did.core }
    ensures cast { let did = retracted (core_of T.entries core.old) dests.now in
        result ≡ cast_of did.effect.cast }
    ensures packet { let did = retracted (core_of T.entries core.old) dests.now in
        IsPacket mesh.now out.new.items did.effect.cast }
    ensures rooms { T.rooms core.new.table ≡ T.rooms core.old.table }
    ensures nodes { T.nodes core.new.table ≡ T.nodes core.old.table }
    ensures asked { core.new.asked ≡ core.old.asked }
    ensures waiting { core.new.waiting.rooms ≡ core.old.waiting.rooms }
{
    let cast = error_cast(core.variant, &core.table, mesh, dests, out);
    core.table.invalidate(dests);
    core.waiting.set_req(&members(mesh, dests));
    cast
}

/// The link to `next` is broken: all valid routes by it become invalid, each with its number raised
/// (0 stays 0), and a route error is written if it would name a destination. If a number can't be
/// raised, nothing changes.
#[tactic(auto, unfolding(aodv_model::specs::Handlers::link_broken))]
pub fn link_broken<T: Table>(
    core: &mut Core<T>,
    mesh: &Mesh,
    next: usize,
    out: &mut Packet,
) -> Result<Cast, Full>
    requires order { IsInOrder T.nodes T.entries (length mesh.now) core.old }
    ensures does { Breaks T.entries mesh.now next core.old result core.new out.new.items }
    ensures order { IsInOrder T.nodes T.entries (length mesh.now) core.new }
    ensures rooms { T.rooms core.new.table ≡ T.rooms core.old.table }
    ensures asked { core.new.asked ≡ core.old.asked }
{
    let mut dests = Dests::new();
    match core.table.dests_via(next, &mut dests) {
        Ok(()) => Ok(retract(core, mesh, &dests, out)),
        Err(_) => Err(Full::Number),
    }
}
