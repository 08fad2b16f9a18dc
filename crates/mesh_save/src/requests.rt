//! Putting the requests that a node has seen into an encoder.
ghost use Rattle.std.specs.Prelude.{◌≡◌, ◌<◌, ◌≤◌, ◌^◌, length};
ghost use Rattle.std.specs.List.{flat_map};
ghost use Rattle.aodv_model.specs.Cores.{next_request_id};
ghost use Rattle.aodv_asked.specs.Requests.{ids_beside};
ghost use Rattle.aodv_model.specs.Pairs.{pairs_in};
ghost use Rattle.mesh_save.specs.Bytes.{request_bytes, requests_bytes};
ghost use Rattle.mesh_save.specs.Requests.{requests_of, AreRequestsOf};

use crate::encoder::Encoder;
use crate::fields::{put16, put32};
use aodv_asked::Asked;

/// How many numbers of 32 bits there are.
const NUMBERS: u64 = 4_294_967_296;

// The id that comes after those of an originator's requests.
fn end_of(asked: &Asked, origin: usize) -> u64
    requires { origin < length asked.now.rooms }
    ensures end { result ≡ next_request_id asked.now.pairs origin }
    ensures few { result ≤ 2 ^ 32 }
{
    match asked.next_id(origin) {
        Some(next) => u64::from(next),
        None => NUMBERS,
    }
}

// How many requests of an originator were seen.
fn count_of(asked: &Asked, origin: usize) -> u64
    requires { origin < length asked.now.rooms }
    ensures count { result ≡ length (ids_beside asked.now.pairs origin) }
    ensures few { next_request_id asked.now.pairs origin ≤ 2 ^ 32 }
{
    // Its contract says that the ids have 32 bits.
    let _end = end_of(asked, origin);
    asked.count(origin)
}

// How many requests were seen.
fn count_asked(asked: &Asked, nodes: usize) -> u64
    requires size { length asked.now.rooms ≡ nodes }
    requires few { nodes ≤ 256 }
    ensures count { result ≡ length (pairs_in asked.now.pairs) }
    ensures ids { AreRequestsOf nodes asked.now.pairs }
{
    // Its contract says that each request is of a node of the mesh.
    let nodes = asked.nodes();
    let mut count = 0;
    for origin in 0..nodes {
        count += count_of(asked, origin);
    }
    count
}

// Puts the requests of an originator that were seen.
fn put_requests_of<P: Encoder>(encoder: &mut P, asked: &Asked, origin: usize)
    requires { origin < length asked.now.rooms }
    ensures { P.wrote encoder.old
        (flat_map request_bytes (requests_of asked.now.pairs origin)) encoder.new }
{
    let mut next = asked.first(origin);
    'ids: while let Some(id) = next {
        put16(encoder, origin as u64);
        put32(encoder, u64::from(id));
        next = asked.after(origin, id);
    }
}

/// Puts the requests that were seen, after their number.
pub(crate) fn put_asked<P: Encoder>(encoder: &mut P, asked: &Asked, nodes: usize)
    requires size { length asked.now.rooms ≡ nodes }
    requires few { nodes ≤ 256 }
    ensures bytes { P.wrote encoder.old (requests_bytes (pairs_in asked.now.pairs)) encoder.new }
    ensures ids { AreRequestsOf nodes asked.now.pairs }
{
    put32(encoder, count_asked(asked, nodes));
    for origin in 0..nodes {
        put_requests_of(encoder, asked, origin);
    }
}
