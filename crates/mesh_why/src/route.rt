//! An honest walk for a route, and its line.
ghost use Rattle.std.specs.Prelude.{◌≡◌, ◌≤◌, ◌<◌, ◌+◌, ◌*◌, ◌++◌, length, option_map, IfSome};
ghost use Rattle.std.specs.List.{All};
ghost use Rattle.mesh_io.specs.Cause.{HasCause};
ghost use Rattle.mesh_io.specs.Puts.{Puts};
ghost use Rattle.mesh_why.specs.Routes.{IsRoute, names_after, walk_line, route_line};

use crate::words::Asked;
use mesh_base::{LINE_CAPACITY, LineBuf, MOST_NODES, Mesh, push_number, push_text};
use mesh_io::{PutFault, Sink, put_all};
use mesh_run::Point;
use mesh_trail::Trail;
use mesh_world::Steps;

/// The walk of the route that is asked for, in a run state. None if there is no world yet, the node
/// or the destination isn't a node of the mesh, or the node has no valid route to the destination.
pub fn walk_at(at: &Point<Trail>, asked: Asked) -> Option<&[usize]>
    ensures route { IsRoute at.now (asked.node.0, asked.dest.0) (option_map (λ w. w.now) result) }
    ensures within { IfSome result (λ walk.
        All (λ x. x < length at.now.mesh) walk.now) }
    ensures some { IfSome result (λ walk. 1 ≤ length walk.now) }
    ensures short { IfSome result (λ walk. length walk.now ≤ MOST_NODES + 1) }
{
    let trail = at.world()?;
    let mesh = trail.world().mesh();
    let node = mesh.index_of(asked.node)?;
    let dest = mesh.index_of(asked.dest)?;
    trail.walk(node, dest)
}

// Appends the names of the nodes, each after a space.
fn push_names(out: &mut LineBuf, mesh: &Mesh, walk: &[usize])
    requires within { All (λ x. x < length mesh.now) walk.now }
    requires room { length out.old.items + 16 * length walk.now ≤ LINE_CAPACITY }
    ensures text { out.new.items ≡ out.old.items ++ names_after mesh.now walk.now }
    ensures length { length out.new.items ≤ length out.old.items + 16 * length walk.now }
{
    for node in walk {
        out.push(b' ');
        mesh.push_name(*node, out);
    }
}

// Appends the line of a walk: at most 201 nodes, each of at most 16 bytes with its space.
#[tactic(auto, unfolding(crate::specs::Routes::walk_line))]
fn push_walk(out: &mut LineBuf, mesh: &Mesh, walk: &[usize])
    requires room { length out.old.items + 3300 ≤ LINE_CAPACITY }
    requires within { All (λ x. x < length mesh.now) walk.now }
    requires some { 1 ≤ length walk.now }
    requires short { length walk.now ≤ MOST_NODES + 1 }
    ensures { out.new.items ≡ out.old.items ++ walk_line mesh.now walk.now }
{
    push_text(out, b"walk ");
    push_number(out, (walk.len() - 1) as u64);
    push_names(out, mesh, walk);
    out.push(b'\n');
}

/// Writes the line of a route: that of its walk, or `none`.
pub fn put_route<O: Sink>(mesh: &Mesh, walk: Option<&[usize]>, out: &mut O) -> Result<(), PutFault>
    requires within { IfSome walk (λ w. All (λ x. x < length mesh.now) w.now) }
    requires some { IfSome walk (λ w. 1 ≤ length w.now) }
    requires short { IfSome walk (λ w. length w.now ≤ MOST_NODES + 1) }
    ensures text { Puts (O.held out.old) (O.held out.new)
        (route_line mesh.now (option_map (λ w. w.now) walk.entry)) result }
    ensures cause { HasCause (O.faults out.old) (O.faults out.new) result }
{
    let mut buf = LineBuf::new();
    match walk {
        Some(walk) => push_walk(&mut buf, mesh, walk),
        None => push_text(&mut buf, b"none\n"),
    }
    put_all(out, buf.as_slice())
}
