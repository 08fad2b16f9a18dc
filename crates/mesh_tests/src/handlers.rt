//! The handlers over both kinds of table: a map, and a row for each node.
ghost use Rattle.std.specs.Prelude.{◌≡◌, ◌<◌, ◌≤◌, ℕ, true, length, slice_index, IfOk, OnOk, IsTrue, None};
ghost use Rattle.std.specs.FinMap as maps;
ghost use Rattle.std.specs.FinSet as sets;
ghost use Rattle.aodv_meaning.specs.Meaning.{unless_in, strange_pair};
ghost use Rattle.aodv_handlers.specs.Shown.{IsInOrder};

use aodv_asked::Asked;
use aodv_handlers::{
    Core, link_broken, may_ask, may_send, new_packet, on_data, on_rerr, on_rrep, on_rreq,
    send_stored, start_request,
};
use aodv_table::{PlainTable, RowTable, Table};
use aodv_waiting::Waiting;
use aodv_wire::{DataView, Message, RerrView, Rrep, Rreq, read};
use mesh_base::{Addr, Bytes, Cast, Effect, Mesh, NoMemory, NodeSet, Packet, Variant};
use std::alloc::Global;
use std::test::Fail;

// What 10.0.0.1, which reaches 10.0.0.2 alone, casts for a route to 10.0.0.3, and what is cast
// afterwards.
const ASKED: &[u8] = b"\x01\x08\0\0\0\0\0\x01\x0a\0\0\x03\0\0\0\0\x0a\0\0\x01\0\0\0\x02";

const ASKED_ON: &[u8] = b"\x01\x08\0\x01\0\0\0\x01\x0a\0\0\x03\0\0\0\0\x0a\0\0\x01\0\0\0\x02";

const ANSWERED: &[u8] = b"\x02\0\0\0\x0a\0\0\x03\0\0\0\x01\x0a\0\0\x01\xff\xff\xff\xff";

const ANSWERED_ON: &[u8] = b"\x02\0\0\x01\x0a\0\0\x03\0\0\0\x01\x0a\0\0\x01\xff\xff\xff\xff";

const DATUM: &[u8] = b"\x10\0\0\0\x0a\0\0\x03\x0a\0\0\x01hi";
// The second node no longer has a route to the third.
const BROKEN: &[u8] = b"\x03\0\0\x01\x0a\0\0\x03\0\0\0\x02";

fn opening<T: Table>(alloc: Global, table: T, mesh: &Mesh, me: usize) -> Result<Core<T>, NoMemory>
    requires nodes { T.nodes table ≡ length mesh.now }
    requires mine { me < length mesh.now }
    requires empty { T.entries table ≡ maps.empty }
    ensures { IfOk result (λ c. IsInOrder T.nodes T.entries (length mesh.now) c) }
{
    let nodes = mesh.len();
    let asked = Asked::new(alloc, nodes)?;
    let waiting = Waiting::new(alloc, nodes)?;
    Ok(Core {
        me,
        sn: 1,
        variant: Variant::Base,
        table,
        asked,
        waiting,
    })
}

fn make_rooms<T: Table>(core: &mut Core<T>, mesh: &Mesh, d: usize) -> Result<(), NoMemory>
    requires order { IsInOrder T.nodes T.entries (length mesh.now) core.old }
    requires below { d < length mesh.now }
    ensures order { IsInOrder T.nodes T.entries (length mesh.now) core.new }
    ensures me { core.new.me ≡ core.old.me }
    ensures row { OnOk result (sets.contains (T.rooms core.new.table) d ≡ true) }
    ensures asked { OnOk result (0 < slice_index core.new.asked.rooms d) }
    ensures waiting { OnOk result (0 < slice_index core.new.waiting.rooms d) }
    ensures keeps { (q : ℕ) → sets.contains (T.rooms core.old.table) q ≡ true
        → sets.contains (T.rooms core.new.table) q ≡ true }
{
    core.table.make_room(d)?;
    core.asked.make_room(d)?;
    core.waiting.make_room(d)
}

fn are_known(mesh: &Mesh, a: Addr, b: Addr) -> bool
    ensures { IsTrue result → unless_in mesh.now a (unless_in mesh.now b None) ≡ None }
{
    mesh.index_of(a).is_some() && mesh.index_of(b).is_some()
}

fn is_one_known(mesh: &Mesh, m: &RerrView<'_>) -> bool
    ensures { IsTrue result → strange_pair mesh.now m.now ≡ None }
{
    m.len() == 1 && mesh.index_of(m.pair(0).0).is_some()
}

fn takes_a_datum<T: Table>(
    core: &mut Core<T>,
    mesh: &Mesh,
    dest: usize,
    body: Bytes,
) -> Result<bool, NoMemory>
    requires order { IsInOrder T.nodes T.entries (length mesh.now) core.old }
    requires some { 1 ≤ length body }
    requires few { length body ≤ 512 }
    requires dest { dest < length mesh.now }
    ensures { IsInOrder T.nodes T.entries (length mesh.now) core.new }
{
    make_rooms(core, mesh, dest)?;
    Ok(new_packet(core, dest, body).is_none())
}

fn ask<T: Table>(
    core: &mut Core<T>,
    mesh: &Mesh,
    dest: usize,
    out: &mut Packet,
) -> Result<Option<Effect>, NoMemory>
    requires order { IsInOrder T.nodes T.entries (length mesh.now) core.old }
    requires dest { dest < length mesh.now }
    ensures { IsInOrder T.nodes T.entries (length mesh.now) core.new }
{
    let me = core.me;
    make_rooms(core, mesh, me)?;
    if !may_ask(core, dest) {
        return Ok(None);
    }
    Ok(start_request(core, mesh, dest, out).ok())
}

fn send<T: Table>(
    core: &mut Core<T>,
    mesh: &Mesh,
    range: &NodeSet,
    dest: usize,
    out: &mut Packet,
) -> Option<Effect>
    requires order { IsInOrder T.nodes T.entries (length mesh.now) core.old }
    requires dest { dest < length mesh.now }
    ensures { IsInOrder T.nodes T.entries (length mesh.now) core.new }
{
    if !may_send(core, dest) {
        return None;
    }
    send_stored(core, mesh, range, dest, out).ok()
}

#[tactic(auto, unfolding(mesh_base::specs::Meshes::index_in))]
fn hears_a_request<T: Table>(
    core: &mut Core<T>,
    mesh: &Mesh,
    range: &NodeSet,
    from: usize,
    m: &Rreq,
    out: &mut Packet,
) -> Result<Option<Effect>, NoMemory>
    requires order { IsInOrder T.nodes T.entries (length mesh.now) core.old }
    requires from { from < length mesh.now }
    ensures { IsInOrder T.nodes T.entries (length mesh.now) core.new }
{
    let Some(oip) = mesh.index_of(m.oip) else {
        return Ok(None);
    };
    make_rooms(core, mesh, from)?;
    make_rooms(core, mesh, oip)?;
    if from == core.me || m.osn == 0 || !are_known(mesh, m.dip, m.oip) {
        return Ok(None);
    }
    Ok(on_rreq(core, mesh, range, from, m, out).ok())
}

#[tactic(auto, unfolding(mesh_base::specs::Meshes::index_in))]
fn hears_a_reply<T: Table>(
    core: &mut Core<T>,
    mesh: &Mesh,
    range: &NodeSet,
    from: usize,
    m: &Rrep,
    out: &mut Packet,
) -> Result<Option<Effect>, NoMemory>
    requires order { IsInOrder T.nodes T.entries (length mesh.now) core.old }
    requires from { from < length mesh.now }
    ensures { IsInOrder T.nodes T.entries (length mesh.now) core.new }
{
    let Some(dip) = mesh.index_of(m.dip) else {
        return Ok(None);
    };
    make_rooms(core, mesh, from)?;
    make_rooms(core, mesh, dip)?;
    if from == core.me || m.dsn == 0 || !are_known(mesh, m.dip, m.oip) {
        return Ok(None);
    }
    Ok(on_rrep(core, mesh, range, from, m, out).ok())
}

fn hears_data<T: Table>(
    core: &mut Core<T>,
    mesh: &Mesh,
    range: &NodeSet,
    m: &DataView<'_>,
    out: &mut Packet,
) -> Option<Effect>
    requires order { IsInOrder T.nodes T.entries (length mesh.now) core.old }
    ensures { IsInOrder T.nodes T.entries (length mesh.now) core.new }
{
    let long = m.body().len();
    if long < 1 || 512 < long || !are_known(mesh, m.dip(), m.oip()) {
        return None;
    }
    on_data(core, mesh, range, m, out).ok()
}

fn hears_an_error<T: Table>(
    core: &mut Core<T>,
    mesh: &Mesh,
    from: usize,
    m: &RerrView<'_>,
    out: &mut Packet,
) -> Result<Option<Effect>, NoMemory>
    requires order { IsInOrder T.nodes T.entries (length mesh.now) core.old }
    requires from { from < length mesh.now }
    ensures { IsInOrder T.nodes T.entries (length mesh.now) core.new }
{
    make_rooms(core, mesh, from)?;
    if from == core.me || !is_one_known(mesh, m) {
        return Ok(None);
    }
    Ok(Some(on_rerr(core, mesh, from, m, out)))
}

// A turn with these bytes. None if they are of no use here, or a counter is full.
fn hear<T: Table>(
    core: &mut Core<T>,
    mesh: &Mesh,
    range: &NodeSet,
    from: usize,
    bytes: &[u8],
    out: &mut Packet,
) -> Result<Option<Effect>, NoMemory>
    requires order { IsInOrder T.nodes T.entries (length mesh.now) core.old }
    ensures { IsInOrder T.nodes T.entries (length mesh.now) core.new }
{
    if mesh.len() <= from {
        return Ok(None);
    }
    match read(bytes) {
        Ok(Message::Rreq(m)) => hears_a_request(core, mesh, range, from, &m, out),
        Ok(Message::Rrep(m)) => hears_a_reply(core, mesh, range, from, &m, out),
        Ok(Message::Parcel(m)) => Ok(hears_data(core, mesh, range, &m, out)),
        Ok(Message::Rerr(m)) => hears_an_error(core, mesh, from, &m, out),
        Err(_) => Ok(None),
    }
}

// What a call did.
#[derive(Clone, Copy, PartialEq, Eq)]
enum Did {
    Nothing,
    Delivered,
    SentTo(usize),
    SentToAll,
    Other,
}

fn did_of(effect: Result<Option<Effect>, NoMemory>) -> Did {
    let Ok(Some(effect)) = effect else {
        return Did::Other;
    };
    if effect.lost || effect.broken.is_some() {
        return Did::Other;
    }
    match effect.cast {
        Cast::Nothing if effect.deliver => Did::Delivered,
        Cast::Nothing => Did::Nothing,
        Cast::One(to) if !effect.deliver => Did::SentTo(to),
        Cast::All if !effect.deliver => Did::SentToAll,
        _ => Did::Other,
    }
}

// What a call is to do, and the packet that it is to cast.
type Want<'a> = (Did, &'a [u8]);

fn is_wanted(effect: Result<Option<Effect>, NoMemory>, out: &Packet, want: Want<'_>) -> bool {
    let (did, packet) = want;
    did_of(effect) == did && out.as_slice() == packet
}

// The nodes in range of this one, of three in a row.
fn beside(node: usize) -> NodeSet {
    let mut nodes = NodeSet::new();
    if node == 1 {
        nodes.add(0);
        nodes.add(2);
    } else {
        nodes.add(1);
    }
    nodes
}

// Whether a node does what `want` says when it asks for a route to the third.
fn asks<T: Table>(core: &mut Core<T>, mesh: &Mesh, want: Want<'_>, out: &mut Packet) -> bool
    requires mesh { length mesh.now ≡ 3 }
    requires order { IsInOrder T.nodes T.entries (length mesh.now) core.old }
    ensures { IsInOrder T.nodes T.entries (length mesh.now) core.new }
{
    let effect = ask(core, mesh, 2, out);
    is_wanted(effect, out, want)
}

// Whether a node does what `want` says when it sends to the third.
fn sends<T: Table>(core: &mut Core<T>, mesh: &Mesh, want: Want<'_>, out: &mut Packet) -> bool
    requires mesh { length mesh.now ≡ 3 }
    requires order { IsInOrder T.nodes T.entries (length mesh.now) core.old }
    ensures { IsInOrder T.nodes T.entries (length mesh.now) core.new }
{
    let range = beside(core.me);
    let effect = send(core, mesh, &range, 2, out);
    is_wanted(Ok(effect), out, want)
}

// Whether a node does what `want` says when it hears these bytes.
fn hears<T: Table>(
    core: &mut Core<T>,
    mesh: &Mesh,
    from: usize,
    bytes: &[u8],
    want: Want<'_>,
    out: &mut Packet,
) -> bool
    requires { IsInOrder T.nodes T.entries (length mesh.now) core.old }
    ensures { IsInOrder T.nodes T.entries (length mesh.now) core.new }
{
    let range = beside(core.me);
    let effect = hear(core, mesh, &range, from, bytes, out);
    is_wanted(effect, out, want)
}

// The first of three nodes in a row asks for a route to the third, and gets the reply: whether each
// call does what is expected.
fn find<T: Table>(
    first: &mut Core<T>,
    second: &mut Core<T>,
    third: &mut Core<T>,
    mesh: &Mesh,
    out: &mut Packet,
) -> [bool; 6]
    requires mesh { length mesh.now ≡ 3 }
    requires first { IsInOrder T.nodes T.entries (length mesh.now) first.old }
    requires second { IsInOrder T.nodes T.entries (length mesh.now) second.old }
    requires third { IsInOrder T.nodes T.entries (length mesh.now) third.old }
    ensures first { IsInOrder T.nodes T.entries (length mesh.now) first.new }
    ensures second { IsInOrder T.nodes T.entries (length mesh.now) second.new }
    ensures third { IsInOrder T.nodes T.entries (length mesh.now) third.new }
{
    [
        asks(first, mesh, (Did::SentToAll, ASKED), out),
        hears(second, mesh, 0, ASKED, (Did::SentToAll, ASKED_ON), out),
        hears(first, mesh, 1, ASKED_ON, (Did::Nothing, b""), out),
        hears(third, mesh, 1, ASKED_ON, (Did::SentTo(1), ANSWERED), out),
        hears(
            second,
            mesh,
            2,
            ANSWERED,
            (Did::SentTo(0), ANSWERED_ON),
            out,
        ),
        hears(first, mesh, 1, ANSWERED_ON, (Did::Nothing, b""), out),
    ]
}

// The datum that waits at the first of three nodes comes to the third: whether each call does what
// is expected.
fn pass_on<T: Table>(
    first: &mut Core<T>,
    second: &mut Core<T>,
    third: &mut Core<T>,
    mesh: &Mesh,
    out: &mut Packet,
) -> [bool; 3]
    requires mesh { length mesh.now ≡ 3 }
    requires first { IsInOrder T.nodes T.entries (length mesh.now) first.old }
    requires second { IsInOrder T.nodes T.entries (length mesh.now) second.old }
    requires third { IsInOrder T.nodes T.entries (length mesh.now) third.old }
{
    [
        sends(first, mesh, (Did::SentTo(1), DATUM), out),
        hears(second, mesh, 0, DATUM, (Did::SentTo(2), DATUM), out),
        hears(third, mesh, 1, DATUM, (Did::Delivered, b""), out),
    ]
}

// Whether the first of three nodes in a row, which has a datum for the third, finds a route and
// sends the datum, with these effects and packets.
fn sends_one<T: Table>(
    alloc: Global,
    first: &mut Core<T>,
    second: &mut Core<T>,
    third: &mut Core<T>,
    mesh: &Mesh,
) -> Result<bool, NoMemory>
    requires mesh { length mesh.now ≡ 3 }
    requires first { IsInOrder T.nodes T.entries (length mesh.now) first.old }
    requires second { IsInOrder T.nodes T.entries (length mesh.now) second.old }
    requires third { IsInOrder T.nodes T.entries (length mesh.now) third.old }
{
    let mut out = Packet::new();
    let body = Bytes::copy_of(alloc, b"hi")?;
    let _ = takes_a_datum(first, mesh, 2, body)?;
    let found = find(first, second, third, mesh, &mut out);
    let passed = pass_on(first, second, third, mesh, &mut out);
    Ok(found == [true; 6] && passed == [true; 3])
}

// As `sends_one`, with nodes that it makes, each with one of these tables. It only makes them,
// since all three are dropped at each way out of a function that owns them.
fn discovers<T: Table>(
    alloc: Global,
    one: T,
    two: T,
    three: T,
    mesh: &Mesh,
) -> Result<bool, NoMemory>
    requires mesh { length mesh.now ≡ 3 }
    requires one { (T.nodes one ≡ 3) × (T.entries one ≡ maps.empty) }
    requires two { (T.nodes two ≡ 3) × (T.entries two ≡ maps.empty) }
    requires three { (T.nodes three ≡ 3) × (T.entries three ≡ maps.empty) }
{
    let mut first = opening(alloc, one, mesh, 0)?;
    let mut second = opening(alloc, two, mesh, 1)?;
    let mut third = opening(alloc, three, mesh, 2)?;
    sends_one(alloc, &mut first, &mut second, &mut third, mesh)
}

fn discovers_over_maps(alloc: Global, mesh: &Mesh) -> Result<bool, NoMemory>
    requires { length mesh.now ≡ 3 }
{
    let one = PlainTable::new(alloc, 3);
    let two = PlainTable::new(alloc, 3);
    let three = PlainTable::new(alloc, 3);
    discovers(alloc, one, two, three, mesh)
}

fn discovers_over_rows(alloc: Global, mesh: &Mesh) -> Result<bool, NoMemory>
    requires { length mesh.now ≡ 3 }
{
    let one = RowTable::new(alloc, 3)?;
    let two = RowTable::new(alloc, 3)?;
    let three = RowTable::new(alloc, 3)?;
    discovers(alloc, one, two, three, mesh)
}

fn mesh_of_three() -> Mesh {
    let mut mesh = Mesh::new();
    let _ = mesh.add(Addr(0x0a00_0001), 1);
    let _ = mesh.add(Addr(0x0a00_0002), 1);
    let _ = mesh.add(Addr(0x0a00_0003), 1);
    mesh
}

#[test]
fn both_tables_cast_the_same_packets(rt: HostRuntime) -> Result<(), Fail> {
    let mesh = mesh_of_three();
    assert!(rt; mesh.len() == 3);
    assert!(rt; discovers_over_maps(rt.alloc(), &mesh)?);
    assert!(rt; discovers_over_rows(rt.alloc(), &mesh)?);
    Ok(())
}

// A node is given a datum, hears of a route, hears that the route is lost, and asks for it: whether
// it took the datum, could send nothing without a route, and could lose its link at the end.
fn loses_its_route<T: Table>(
    alloc: Global,
    core: &mut Core<T>,
    mesh: &Mesh,
) -> Result<bool, NoMemory>
    requires mesh { length mesh.now ≡ 3 }
    requires order { IsInOrder T.nodes T.entries (length mesh.now) core.old }
{
    let end = beside(0);
    let mut out = Packet::new();
    let body = Bytes::copy_of(alloc, b"hi")?;
    let taken = takes_a_datum(core, mesh, 2, body)?;
    let found = did_of(hear(core, mesh, &end, 1, ANSWERED_ON, &mut out));
    let broken = did_of(hear(core, mesh, &end, 1, BROKEN, &mut out));
    let idle = send(core, mesh, &end, 2, &mut out).is_none();
    let asked = did_of(ask(core, mesh, 2, &mut out));
    let ended = link_broken(core, mesh, 1, &mut out).is_ok();
    Ok(
        [found, broken, asked] == [Did::Nothing, Did::Nothing, Did::SentToAll]
            && [taken, idle, ended] == [true; 3],
    )
}

#[test]
fn a_node_that_lost_its_route_asks_again(rt: HostRuntime) -> Result<(), Fail> {
    let mesh = mesh_of_three();
    assert!(rt; mesh.len() == 3);
    let mut first = opening(rt.alloc(), PlainTable::new(rt.alloc(), 3), &mesh, 0)?;
    assert!(rt; loses_its_route(rt.alloc(), &mut first, &mesh)?);
    Ok(())
}
