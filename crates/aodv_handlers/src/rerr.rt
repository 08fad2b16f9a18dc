//! Route errors from neighbours (AWN's RERR; RFC 3561, section 6.11).
ghost use Rattle.std.specs.Prelude.{◌≡◌, ◌≢◌, ◌<◌, ℕ, ◌&&◌, ◌==◌, nat_lt, if◌then◌else◌, unwrap_or, true, length, get_or, Some, None, Ok};
ghost use Rattle.std.specs.Bool.{OnFalse};
ghost use Rattle.std.specs.FinMap as maps;
ghost use Rattle.std.specs.FinSet as sets;
ghost use Rattle.aodv_model.specs.Tables.{goes_by, sqn, accepted_unreachable};
ghost use Rattle.aodv_model.specs.Handlers.{on_rerr as turned};
ghost use Rattle.aodv_wire.specs.declared.message.Message.TheVariants.{Rerr as a_rerr};
ghost use Rattle.aodv_meaning.specs.Effects.{cast_of};
ghost use Rattle.aodv_meaning.specs.Meaning.{dests_in, stranger};
ghost use Rattle.aodv_meaning.specs.Sent.{IsPacket};
ghost use Rattle.aodv_handlers.specs.Shown.{core_of, IsInOrder};
ghost use Rattle.aodv_handlers.specs.Made.{Reacts};
ghost use Rattle.aodv_handlers.specs.Parts.{gone_by};

use crate::cores::Core;
use crate::errors::retract;
use crate::routes::note_neighbour;
use crate::unicast::casting;
use aodv_model::{Dests, Flag};
use aodv_table::Table;
use aodv_wire::RerrView;
use mesh_base::{Cast, Effect, MOST_NODES, Mesh, Packet};

// Records the number for d, if none is recorded yet.
fn state_number(numbers: &mut [Option<u32>], d: usize, number: u32)
    requires { d < length numbers.old }
    ensures { let stated = Some (unwrap_or (get_or numbers.old d None) number) in (q : ℕ) →
        get_or numbers.new q None ≡ (if q == d then stated else get_or numbers.old q None) }
{
    if numbers[d].is_none() {
        numbers[d] = Some(number);
    }
}

// Records the number that a route error states for each node of the mesh. If it states two, the
// first is recorded.
fn state_numbers(mesh: &Mesh, m: &RerrView<'_>, numbers: &mut [Option<u32>])
    requires known { stranger mesh.now (a_rerr m.now) ≡ None }
    requires size { length numbers.old ≡ MOST_NODES }
    requires none { (d : ℕ) → get_or numbers.old d None ≡ None }
    ensures size { length numbers.new ≡ MOST_NODES }
    ensures numbers { (d : ℕ) → get_or numbers.new d None ≡ maps.get (dests_in mesh.now m.now) d }
{
    // This tells the prover that a mesh has at most 200 nodes, so the list has a slot for each of
    // them.
    let _few = mesh.len();
    for k in 0..m.len() {
        let (a, number) = m.pair(k);
        let d = mesh.index_in(a);
        state_number(numbers, d, number);
    }
}

// The number stated for d, if d has a valid entry with that next hop and a smaller number.
fn accepted_number<T: Table>(table: &T, from: usize, d: usize, stated: Option<u32>) -> Option<u32>
    requires { d < T.nodes table.now }
    ensures { let rt = T.entries table.now in
        let newer = nat_lt (sqn rt d) (unwrap_or stated 0) in
        result ≡ (if goes_by (maps.get rt d) from && newer then stated else None) }
{
    let number = stated?;
    match table.get(d) {
        Some(e) if e.flag == Flag::Val && e.next == from && e.dsn < number => Some(number),
        _ => None,
    }
}

// Puts into `dests`, in place of what it held, the pairs of a route error from a neighbour that
// make routes invalid. It isn't inlined, so that its locals are off the stack before the routes are
// made invalid.
#[inline(never)]
fn accept_dests<T: Table>(table: &T, mesh: &Mesh, from: usize, m: &RerrView<'_>, dests: &mut Dests)
    requires nodes { T.nodes table.now ≡ length mesh.now }
    requires known { stranger mesh.now (a_rerr m.now) ≡ None }
    ensures { let stated = dests_in mesh.now m.now in
        dests.new ≡ accepted_unreachable (T.entries table.now) from stated }
{
    let mut numbers = [None; MOST_NODES];
    state_numbers(mesh, m, &mut numbers);
    dests.clear();
    for d in 0..mesh.len() {
        if let Some(number) = accepted_number(table, from, d, numbers[d]) {
            dests.push(d, number);
        }
    }
}

// Whether a pair names a destination whose route goes by that neighbour, with a larger number than
// the route's. If two pairs name one destination, that may be the second, which isn't accepted.
fn may_accept<T: Table>(table: &T, mesh: &Mesh, from: usize, m: &RerrView<'_>) -> bool
    requires nodes { T.nodes table.now ≡ length mesh.now }
    requires known { stranger mesh.now (a_rerr m.now) ≡ None }
    ensures { let dests = dests_in mesh.now m.now in
        OnFalse result (accepted_unreachable (T.entries table.now) from dests ≡ maps.empty) }
{
    for k in 0..m.len() {
        let (a, number) = m.pair(k);
        let d = mesh.index_in(a);
        if accepted_number(table, from, d, Some(number)).is_some() {
            return true;
        }
    }
    false
}

// Makes the routes invalid for which a route error is accepted. It isn't inlined: otherwise the
// memory of its locals would be cleared for each error, even one that makes no route invalid.
#[inline(never)]
fn retract_accepted<T: Table>(
    core: &mut Core<T>,
    mesh: &Mesh,
    from: usize,
    m: &RerrView<'_>,
    out: &mut Packet,
) -> Cast
    requires nodes { T.nodes core.old.table ≡ length mesh.now }
    requires known { stranger mesh.now (a_rerr m.now) ≡ None }
    ensures core { let did = gone_by (core_of T.entries core.old) from (dests_in mesh.now m.now) in
        core_of T.entries core.new ≡ did.core }
    ensures cast { let did = gone_by (core_of T.entries core.old) from (dests_in mesh.now m.now) in
        result ≡ cast_of did.effect.cast }
    ensures packet { let dests = dests_in mesh.now m.now in
        let did = gone_by (core_of T.entries core.old) from dests in
        IsPacket mesh.now out.new.items did.effect.cast }
    ensures rooms { T.rooms core.new.table ≡ T.rooms core.old.table }
    ensures nodes { T.nodes core.new.table ≡ T.nodes core.old.table }
    ensures asked { core.new.asked ≡ core.old.asked }
    ensures waiting { core.new.waiting.rooms ≡ core.old.waiting.rooms }
{
    let mut dests = Dests::new();
    accept_dests(&core.table, mesh, from, m, &mut dests);
    retract(core, mesh, &dests, out)
}

// Does what `retract_accepted` does. Most errors name no route that goes by their sender, and
// change nothing.
fn retract_stated<T: Table>(
    core: &mut Core<T>,
    mesh: &Mesh,
    from: usize,
    m: &RerrView<'_>,
    out: &mut Packet,
) -> Cast
    requires nodes { T.nodes core.old.table ≡ length mesh.now }
    requires known { stranger mesh.now (a_rerr m.now) ≡ None }
    ensures core { let did = gone_by (core_of T.entries core.old) from (dests_in mesh.now m.now) in
        core_of T.entries core.new ≡ did.core }
    ensures cast { let did = gone_by (core_of T.entries core.old) from (dests_in mesh.now m.now) in
        result ≡ cast_of did.effect.cast }
    ensures packet { let dests = dests_in mesh.now m.now in
        let did = gone_by (core_of T.entries core.old) from dests in
        IsPacket mesh.now out.new.items did.effect.cast }
    ensures rooms { T.rooms core.new.table ≡ T.rooms core.old.table }
    ensures nodes { T.nodes core.new.table ≡ T.nodes core.old.table }
    ensures asked { core.new.asked ≡ core.old.asked }
    ensures waiting { core.new.waiting.rooms ≡ core.old.waiting.rooms }
{
    if may_accept(&core.table, mesh, from, m) {
        return retract_accepted(core, mesh, from, m, out);
    }
    out.clear();
    Cast::Nothing
}

/// A route error from a neighbour. Only routes by that neighbour become invalid, and only those
/// with a smaller number than stated.
#[tactic(auto, unfolding(aodv_model::specs::Handlers::on_rerr, aodv_model::specs::Handlers::after_hearing))]
#[inline(always)]
pub fn on_rerr<T: Table>(
    core: &mut Core<T>,
    mesh: &Mesh,
    from: usize,
    m: &RerrView<'_>,
    out: &mut Packet,
) -> Effect
    requires order { IsInOrder T.nodes T.entries (length mesh.now) core.old }
    requires known { stranger mesh.now (a_rerr m.now) ≡ None }
    requires from { from < length mesh.now }
    requires other { from ≢ core.old.me }
    requires row_from { sets.contains (T.rooms core.old.table) from ≡ true }
    ensures does { Reacts T.entries mesh.now (λ c. turned c from (dests_in mesh.now m.now))
        core.old (Ok result) core.new out.new.items }
    ensures order { IsInOrder T.nodes T.entries (length mesh.now) core.new }
    ensures rooms { T.rooms core.new.table ≡ T.rooms core.old.table }
    ensures asked { core.new.asked ≡ core.old.asked }
{
    note_neighbour(&mut core.table, from);
    casting(retract_stated(core, mesh, from, m, out))
}
