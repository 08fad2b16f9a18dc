//! Where an event happens.
ghost use Rattle.std.specs.Prelude.{◌≡◌};
ghost use Rattle.mesh_meaning.specs.Events.{event_of, node_of};

use mesh_base::Event;

// The node at which an event happens. An event of a link or a copy happens at no node, and gives 0.
pub(crate) fn node_of(e: &Event<'_>) -> usize
    ensures { result ≡ node_of (event_of e.now) }
{
    match *e {
        Event::Give { node, .. } => node,
        Event::Turn { node } => node,
        Event::Send { node, .. } => node,
        Event::Ask { node, .. } => node,
        _ => 0,
    }
}
