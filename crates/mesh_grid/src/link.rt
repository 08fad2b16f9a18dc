//! The changes of links that follow when a node comes to a place.
ghost use Rattle.std.specs.Prelude.{◌≡◌, ◌<◌, ℕ, IfSome};
ghost use Rattle.mesh_base.specs.declared.limits.TheConstants.{MOST_NODES};
ghost use Rattle.mesh_model.specs.InMesh.{IsEvent};
ghost use Rattle.mesh_meaning.specs.Events.{event_of};
ghost use Rattle.mesh_grid.specs.Links as links;
ghost use Rattle.mesh_grid.specs.Seen.{events_in};

use crate::line::Placing;
use crate::place::Places;
use mesh_base::{Event, NodeSet};

// The change between two nodes, if there is one.
fn change(in_reach: bool, stands: bool, x: usize, y: usize) -> Option<Event<'static>>
    ensures { events_in result ≡ links.change in_reach stands x y }
{
    let a = x.min(y);
    let b = x.max(y);
    if in_reach && !stands {
        return Some(Event::Link { a, b });
    }
    if stands && !in_reach {
        return Some(Event::Cut { a, b });
    }
    None
}

impl Places {
    /// Whether a node may come to a place: by `place` if it has none, by `move` if it has one.
    pub fn may_come(&self, new: &Placing) -> bool
        requires { new.now.node < MOST_NODES }
        ensures { result ≡ links.may_come self.now new.now }
    {
        self.of(new.node).is_none() == new.first
    }

    /// Puts a node at a place, if it may come there. The line has started the run either way.
    pub fn come(&mut self, new: &Placing)
        requires { new.now.node < MOST_NODES }
        ensures { self.new ≡ links.with_placing self.old new.now }
    {
        if self.may_come(new) {
            self.put(new.node, new.place);
        }
        self.begun = true;
    }

    /// The change of the link between a node that comes to a place and node `y`, if there is one.
    /// `near` are the nodes that are linked to the node that comes.
    pub fn change_at(
        &self,
        reach: u32,
        near: &NodeSet,
        new: &Placing,
        y: usize,
    ) -> Option<Event<'static>>
        requires node { new.now.node < MOST_NODES }
        requires other { y < MOST_NODES }
        ensures value { events_in result ≡ links.change_at reach self.now near.now new.now y }
        ensures event { (size : ℕ) → new.now.node < size → y < size
            → IfSome result (λ e. IsEvent size (event_of e)) }
    {
        if y == new.node {
            return None;
        }
        let other = self.of(y)?;
        let in_reach = new.place.is_within(reach, other);
        change(in_reach, near.has(y), new.node, y)
    }
}
