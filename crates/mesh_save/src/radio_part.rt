//! Putting the links and the copies in flight into an encoder.
ghost use Rattle.std.specs.Prelude.{◌≡◌, ◌<◌, ◌≤◌, length};
ghost use Rattle.std.specs.FinSet as sets;
ghost use Rattle.std.specs.List.{flat_map};
ghost use Rattle.mesh_base.specs.declared.limits.TheConstants.{MOST_NODES};
ghost use Rattle.mesh_base.specs.Views.{flying_seen};
ghost use Rattle.mesh_checkpoint.specs.Points.{links_of};
ghost use Rattle.mesh_save.specs.Bytes.{link_bytes, links_bytes, copy_bytes, copies_bytes, bytes_where};
ghost use Rattle.mesh_save.specs.Links.{link_of, pairs_from};

use crate::encoder::Encoder;
use crate::fields::{put_text, put_truth, put16, put32, put64};
use mesh_base::FlyingView;
use mesh_radio::Radio;

// How many of a node's links to the nodes above it have ever stood.
fn count_links_of(radio: &Radio, a: usize, nodes: usize) -> u64
    requires size { radio.now.size ≡ nodes }
    requires within { a < nodes }
    ensures count { result ≡ length (pairs_from radio.now.ever a nodes) }
    ensures few { result ≤ nodes }
{
    // Its contract says that the second node of a link is above the first.
    let _count = radio.count();
    let mut count = 0;
    for b in a + 1..nodes {
        count += u64::from(radio.stood(a, b));
    }
    count
}

// How many links have ever stood.
fn count_links(radio: &Radio, nodes: usize) -> u64
    requires size { radio.now.size ≡ nodes }
    requires few { nodes ≤ MOST_NODES }
    ensures { result ≡ length (links_of radio.now.ever radio.now.links) }
{
    // Its contract says that links are between nodes of the mesh.
    let _count = radio.count();
    let mut count = 0;
    for a in 0..nodes {
        count += count_links_of(radio, a, nodes);
    }
    count
}

// Puts the link between two nodes, if it has ever stood.
fn put_link<P: Encoder>(encoder: &mut P, radio: &Radio, a: usize, b: usize)
    requires rising { a < b }
    requires within { b < radio.now.size }
    ensures { P.wrote encoder.old
        (bytes_where (sets.contains radio.now.ever (a, b))
        (link_bytes (link_of radio.now.links (a, b)))) encoder.new }
{
    if radio.stood(a, b) {
        put16(encoder, a as u64);
        put16(encoder, b as u64);
        put_truth(encoder, radio.range(a).has(b));
    }
}

// Puts the links of a node to those above it that have ever stood.
fn put_links_of<P: Encoder>(encoder: &mut P, radio: &Radio, a: usize, nodes: usize)
    requires size { radio.now.size ≡ nodes }
    requires within { a < nodes }
    ensures { P.wrote encoder.old
        (flat_map (λ p. link_bytes (link_of radio.now.links p))
        (pairs_from radio.now.ever a nodes)) encoder.new }
{
    // Its contract says that the second node of a link is above the first.
    let _count = radio.count();
    for b in a + 1..nodes {
        put_link(encoder, radio, a, b);
    }
}

/// Puts the links that have ever stood, after their number.
pub(crate) fn put_links<P: Encoder>(encoder: &mut P, radio: &Radio, nodes: usize)
    requires size { radio.now.size ≡ nodes }
    requires few { nodes ≤ MOST_NODES }
    ensures { P.wrote encoder.old
        (links_bytes (links_of radio.now.ever radio.now.links)) encoder.new }
{
    // Its contract says that links are between nodes of the mesh.
    let _count = radio.count();
    put16(encoder, count_links(radio, nodes));
    for a in 0..nodes {
        put_links_of(encoder, radio, a, nodes);
    }
}

// Puts a copy.
fn put_copy<P: Encoder>(encoder: &mut P, copy: &FlyingView<'_>)
    ensures { P.wrote encoder.old (copy_bytes (flying_seen copy.now)) encoder.new }
{
    put64(encoder, copy.id);
    put16(encoder, copy.from as u64);
    put16(encoder, copy.to as u64);
    put_text(encoder, copy.bytes);
}

/// Puts the copies in flight, after their number.
pub(crate) fn put_copies<P: Encoder>(encoder: &mut P, radio: &Radio)
    ensures { P.wrote encoder.old (copies_bytes radio.now.flying) encoder.new }
{
    put32(encoder, radio.count() as u64);
    let mut id = 0;
    let mut hint = 0;
    'copies: while let Some(copy) = radio.next_from(id, &mut hint) {
        put_copy(encoder, &copy);
        id = copy.id + 1;
    }
}
