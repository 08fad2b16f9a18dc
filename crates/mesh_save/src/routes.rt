//! Putting the routes of a node into an encoder.
ghost use Rattle.std.specs.Prelude.{◌≡◌, ◌<◌, length, IfSome};
ghost use Rattle.std.specs.FinMap as maps;
ghost use Rattle.mesh_base.specs.Members.{member_list};
ghost use Rattle.aodv_model.specs.Quality.{is_kno, is_val};
ghost use Rattle.aodv_model.specs.Soundness.{IsSoundTable};
ghost use Rattle.mesh_checkpoint.specs.Points.{route_of, routes_in};
ghost use Rattle.mesh_save.specs.Bytes.{bytes_if, indices_bytes, route_bytes, routes_bytes};
ghost use Rattle.mesh_save.specs.Narrow.{IsNarrowEntry, AreEntriesNarrow};

use crate::encoder::Encoder;
use crate::fields::{put_truth, put16, put32};
use aodv_model::{Entry, Flag, Known};
use aodv_node::Node;
use mesh_base::NodeSet;

// Puts the members of a set, after their number.
fn put_members<P: Encoder>(encoder: &mut P, set: &NodeSet)
    ensures { P.wrote encoder.old (indices_bytes (member_list set.now)) encoder.new }
{
    let count = set.count();
    put16(encoder, count as u64);
    for k in 0..count {
        let Some(i) = set.nth(k) else { unreachable!() };
        put16(encoder, i as u64);
    }
}

// Whether the number of an entry is known.
fn is_known(entry: &Entry) -> bool
    ensures { result ≡ is_kno entry.now.dsk }
{
    entry.dsk == Known::Kno
}

// Whether an entry may be used to forward.
fn is_valid(entry: &Entry) -> bool
    ensures { result ≡ is_val entry.now.flag }
{
    entry.flag == Flag::Val
}

// Puts the route to a destination.
fn put_route<P: Encoder>(encoder: &mut P, dest: usize, entry: &Entry)
    ensures { P.wrote encoder.old (route_bytes (route_of (dest, entry.now))) encoder.new }
{
    put16(encoder, dest as u64);
    put32(encoder, u64::from(entry.dsn));
    put_truth(encoder, is_known(entry));
    put_truth(encoder, is_valid(entry));
    encoder.put(&[entry.hops]);
    put16(encoder, entry.next as u64);
    put_members(encoder, &entry.pre);
}

// Puts the route to a destination, if there is one.
fn put_route_to<P: Encoder>(encoder: &mut P, node: &Node, dest: usize)
    requires { dest < node.now.size }
    ensures narrow { IfSome (maps.get node.now.core.rt dest) IsNarrowEntry }
    ensures bytes { P.wrote encoder.old
        (bytes_if (λ e. route_bytes (route_of (dest, e))) (maps.get node.now.core.rt dest))
        encoder.new }
{
    if let Some(entry) = node.entry(dest) {
        put_route(encoder, dest, &entry);
    }
}

// How many routes a node has.
fn count_routes(node: &Node, nodes: usize) -> u64
    requires size { node.now.size ≡ nodes }
    requires sound { IsSoundTable nodes node.now.core.ip node.now.core.rt }
    ensures { result ≡ length (routes_in node.now.core.rt) }
{
    let mut count = 0;
    for d in 0..nodes {
        count += u64::from(node.entry(d).is_some());
    }
    count
}

/// Puts the routes of a node, after their number.
pub(crate) fn put_routes<P: Encoder>(encoder: &mut P, node: &Node, nodes: usize)
    requires size { node.now.size ≡ nodes }
    requires sound { IsSoundTable nodes node.now.core.ip node.now.core.rt }
    ensures bytes { P.wrote encoder.old (routes_bytes (routes_in node.now.core.rt)) encoder.new }
    ensures narrow { AreEntriesNarrow node.now.core.rt }
{
    put16(encoder, count_routes(node, nodes));
    for d in 0..nodes {
        put_route_to(encoder, node, d);
    }
}
