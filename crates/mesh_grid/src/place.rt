//! Places on a grid.
ghost use Rattle.std.specs.Prelude.{◌≡◌, ◌<◌, ◌*◌, ◌^◌};
ghost use Rattle.mesh_grid.specs.Places as places;

use mesh_base::MOST_NODES;

/// The greatest coordinate of a place, and the greatest reach.
pub const GREATEST_PLACE: u64 = 1_000_000;

/// A place on the grid. Both coordinates count from 0.
#[derive(Clone, Copy, PartialEq, Eq)]
pub struct Place {
    pub x: u32,
    pub y: u32,
}

// The square of how far two numbers are apart.
fn square(m: u32, n: u32) -> u128
    ensures value { result ≡ places.apart m n * places.apart m n }
    ensures few { result < 2 ^ 64 }
{
    let apart = u128::from(m.abs_diff(n));
    apart * apart
}

impl Place {
    /// Whether the two places are within reach of each other: at most `reach` apart.
    pub fn is_within(self, reach: u32, other: Place) -> bool
        ensures { result ≡ places.is_within reach self other }
    {
        let reach = u128::from(reach);
        square(self.x, other.x) + square(self.y, other.y) <= reach * reach
    }
}

/// Where the nodes of a mesh are, and whether an allowed line about places has started the run. It
/// allocates nothing.
#[derive(Clone, Copy, Drop)]
pub struct Places {
    pub at: [Option<Place>; MOST_NODES],
    pub begun: bool,
}

impl Places {
    /// The places before any node has one.
    pub fn new() -> Places
        ensures { result ≡ places.no_places }
    {
        Places {
            at: [None; MOST_NODES],
            begun: false,
        }
    }

    /// Where a node is, if it has a place.
    pub fn of(&self, node: usize) -> Option<Place>
        requires { node < MOST_NODES }
        ensures { result ≡ places.place_of self.now node }
    {
        self.at[node]
    }

    /// Puts a node at a place.
    pub fn put(&mut self, node: usize, place: Place)
        requires { node < MOST_NODES }
        ensures { self.new ≡ places.with_place self.old node place }
    {
        self.at[node] = Some(place);
    }
}
