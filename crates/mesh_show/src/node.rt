//! The state of a node, line by line.
ghost use Rattle.std.specs.Prelude.{◌≡◌, ◌<◌, length};
ghost use Rattle.std.specs.List.{flat_map};
ghost use Rattle.std.specs.FinMap as maps;
ghost use Rattle.aodv_model.specs.Soundness.{IsStoreInMesh};
ghost use Rattle.aodv_asked.specs.Requests.{ids_beside};
ghost use Rattle.aodv_node.specs.Seen.{IsSoundNode};
ghost use Rattle.mesh_text.specs.Tables.{asked_line, asked_text, routes_text, store_text, node_text};
ghost use Rattle.mesh_show.specs.Destinations.{entry_of, waits_of};
ghost use Rattle.mesh_io.specs.Cause.{HasCause};
ghost use Rattle.mesh_io.specs.Puts.{Puts};

use aodv_asked::Asked;
use aodv_node::Node;
use aodv_waiting::Waiting;
use mesh_base::Mesh;
use mesh_io::{PutFault, Sink};
use mesh_report::{put_asked, put_entry, put_number, put_waits};

// Writes the requests of one originator that were seen, in ascending order of id.
fn put_asked_of<O: Sink>(mesh: &Mesh, asked: &Asked, o: usize, out: &mut O) -> Result<(), PutFault>
    requires node { o < length mesh.now }
    requires size { length asked.now.rooms ≡ length mesh.now }
    ensures text { Puts (O.held out.old) (O.held out.new)
        (flat_map (asked_line mesh.now o) (ids_beside asked.now.pairs o)) result }
    ensures cause { HasCause (O.faults out.old) (O.faults out.new) result }
{
    let mut next = asked.first(o);
    'ids: while let Some(id) = next {
        put_asked(mesh, o, id, out)?;
        next = asked.after(o, id);
    }
    Ok(())
}

// Writes all requests that were seen, in ascending order of originator.
fn put_all_asked<O: Sink>(mesh: &Mesh, asked: &Asked, out: &mut O) -> Result<(), PutFault>
    requires { length asked.now.rooms ≡ length mesh.now }
    ensures text { Puts (O.held out.old) (O.held out.new)
        (asked_text mesh.now asked.now.pairs) result }
    ensures cause { HasCause (O.faults out.old) (O.faults out.new) result }
{
    for o in 0..asked.nodes() {
        put_asked_of(mesh, asked, o, out)?;
    }
    Ok(())
}

// Writes the entry for one destination, if there is one.
fn put_entry_of<O: Sink>(mesh: &Mesh, node: &Node, d: usize, out: &mut O) -> Result<(), PutFault>
    requires dest { d < length mesh.now }
    requires size { node.now.size ≡ length mesh.now }
    requires sound { IsSoundNode node.now }
    ensures text { Puts (O.held out.old) (O.held out.new)
        (entry_of mesh.now d (maps.get node.now.core.rt d)) result }
    ensures cause { HasCause (O.faults out.old) (O.faults out.new) result }
{
    match node.entry(d) {
        Some(entry) => put_entry(mesh, d, &entry, out),
        None => Ok(()),
    }
}

// Writes the routing table, in ascending order of destination.
fn put_entries<O: Sink>(mesh: &Mesh, node: &Node, out: &mut O) -> Result<(), PutFault>
    requires size { node.now.size ≡ length mesh.now }
    requires sound { IsSoundNode node.now }
    ensures text { Puts (O.held out.old) (O.held out.new)
        (routes_text mesh.now node.now.core.rt) result }
    ensures cause { HasCause (O.faults out.old) (O.faults out.new) result }
{
    for d in 0..mesh.len() {
        put_entry_of(mesh, node, d, out)?;
    }
    Ok(())
}

// Writes what waits for one destination, if anything does.
fn put_waits_of<O: Sink>(
    mesh: &Mesh,
    waiting: &Waiting,
    d: usize,
    out: &mut O,
) -> Result<(), PutFault>
    requires dest { d < length mesh.now }
    requires size { length waiting.now.rooms ≡ length mesh.now }
    ensures text { Puts (O.held out.old) (O.held out.new)
        (waits_of mesh.now d (maps.get waiting.now.store d)) result }
    ensures cause { HasCause (O.faults out.old) (O.faults out.new) result }
{
    if !waiting.has(d) {
        return Ok(());
    }
    put_waits(mesh, d, waiting.needs_request(d), waiting.count(d), out)
}

// Writes what waits, in ascending order of destination.
fn put_all_waits<O: Sink>(mesh: &Mesh, waiting: &Waiting, out: &mut O) -> Result<(), PutFault>
    requires size { length waiting.now.rooms ≡ length mesh.now }
    requires sound { IsStoreInMesh (length mesh.now) waiting.now.store }
    ensures text { Puts (O.held out.old) (O.held out.new)
        (store_text mesh.now waiting.now.store) result }
    ensures cause { HasCause (O.faults out.old) (O.faults out.new) result }
{
    for d in 0..mesh.len() {
        put_waits_of(mesh, waiting, d, out)?;
    }
    Ok(())
}

/// Writes the state of a node: its own number, the requests that it has seen, its entries and its
/// waiting data, each in ascending order of address, and how many items its inbox has. It takes no
/// memory: each line goes to the sink in pieces.
#[tactic(auto, unfolding(mesh_text::specs::Tables::node_text))]
pub fn put_node<O: Sink>(mesh: &Mesh, node: &Node, out: &mut O) -> Result<(), PutFault>
    requires { node.now.size ≡ length mesh.now }
    ensures text { Puts (O.held out.old) (O.held out.new)
        (node_text mesh.now node.now.core (length node.now.items)) result }
    ensures cause { HasCause (O.faults out.old) (O.faults out.new) result }
{
    put_number("sn", u64::from(node.sn()), out)?;
    put_all_asked(mesh, node.asked(), out)?;
    put_entries(mesh, node, out)?;
    put_all_waits(mesh, node.waiting(), out)?;
    put_number("inbox", node.inbox().len() as u64, out)
}
