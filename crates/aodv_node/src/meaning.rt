//! What a packet means: its message over the nodes of a mesh.
ghost use Rattle.std.specs.Prelude.{◌≡◌, None, Some, IfOk, OnOk, IfErr};
ghost use Rattle.std.specs.Option.{ok_or};
ghost use Rattle.mesh_base.specs.Meshes.{index_of};
ghost use Rattle.aodv_meaning.specs.Meaning.{index, stranger, strange_pair, unless_in};
ghost use Rattle.aodv_node.specs.Meanings.{Means};

use aodv_handlers::{Datum, Reply, Request};
use aodv_wire::{Message, RerrView};
use mesh_base::{Addr, Mesh};

/// A message over the nodes of a mesh. The pairs of a route error keep their addresses.
#[derive(Drop)]
pub(crate) enum Meaning<'a> {
    Request(Request),
    Reply(Reply),
    Error(RerrView<'a>),
    Datum(Datum<'a>),
}

// The nodes of a packet: its destination and its originator.
#[derive(Clone, Copy)]
struct Ends {
    dip: usize,
    oip: usize,
}

// The node of an address, or the address itself if it is a stranger.
#[inline(always)]
fn node_of(mesh: &Mesh, a: Addr) -> Result<usize, Addr>
    ensures { result ≡ ok_or (index_of mesh.now a.0) a }
{
    mesh.index_of(a).ok_or(a)
}

// The nodes of both addresses, or the first of these that is a stranger.
#[tactic(auto, unfolding(mesh_base::specs::Meshes::index_in))]
#[inline(always)]
fn ends_of(mesh: &Mesh, dip: Addr, oip: Addr) -> Result<Ends, Addr>
    ensures dip { IfOk result (λ ends. index mesh.now dip ≡ ends.dip) }
    ensures oip { IfOk result (λ ends. index mesh.now oip ≡ ends.oip) }
    ensures known { OnOk result (unless_in mesh.now dip (unless_in mesh.now oip None) ≡ None) }
    ensures strange { IfErr result (λ who.
        unless_in mesh.now dip (unless_in mesh.now oip None) ≡ Some who) }
{
    Ok(Ends {
        dip: node_of(mesh, dip)?,
        oip: node_of(mesh, oip)?,
    })
}

// The first address of a route error that is a stranger.
#[tactic(auto, using(crate::proofs::Strangers::hit, crate::proofs::Strangers::miss, crate::proofs::Strangers::ended))]
fn find_strange_pair(mesh: &Mesh, m: &RerrView<'_>) -> Option<Addr>
    ensures { result ≡ strange_pair mesh.now m.now }
{
    for k in 0..m.len() {
        let (a, _) = m.pair(k);
        if !mesh.index_of(a).is_some() {
            return Some(a);
        }
    }
    None
}

/// What a message means, or the first stranger that it names.
#[inline(always)]
pub(crate) fn meaning_of<'a>(mesh: &Mesh, message: Message<'a>) -> Result<Meaning<'a>, Addr>
    ensures means { IfOk result (Means mesh.now message.entry) }
    ensures known { OnOk result (stranger mesh.now message.entry ≡ None) }
    ensures strange { IfErr result (λ who. stranger mesh.now message.entry ≡ Some who) }
{
    match message {
        Message::Rreq(m) => {
            let ends = ends_of(mesh, m.dip, m.oip)?;
            Ok(Meaning::Request(Request {
                hops: m.hops,
                id: m.id,
                dip: ends.dip,
                dsn: m.dsn,
                known: m.known,
                oip: ends.oip,
                osn: m.osn,
            }))
        }
        Message::Rrep(m) => {
            let ends = ends_of(mesh, m.dip, m.oip)?;
            Ok(Meaning::Reply(Reply {
                hops: m.hops,
                dip: ends.dip,
                dsn: m.dsn,
                oip: ends.oip,
            }))
        }
        Message::Rerr(m) => match find_strange_pair(mesh, &m) {
            Some(who) => Err(who),
            None => Ok(Meaning::Error(m)),
        },
        Message::Parcel(m) => {
            let ends = ends_of(mesh, m.dip(), m.oip())?;
            Ok(Meaning::Datum(Datum {
                dip: ends.dip,
                oip: ends.oip,
                body: m.body(),
            }))
        }
    }
}
