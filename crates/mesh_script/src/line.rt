//! A line of a schedule.
use mesh_base::{Addr, Event};

/// A line that is allowed at its place in a schedule. A node of the mesh is given by its index.
#[derive(Clone, Copy)]
pub enum Line<'a> {
    /// An empty line or a remark.
    Blank,
    /// One more node, and its first sequence number.
    Node { addr: Addr, first: u32 },
    /// One event.
    Step(Event<'a>),
    /// Up to this many events, each chosen by what is enabled at that time.
    Auto { count: u32 },
    /// The state of a node is shown.
    Show { node: usize },
    /// Where the valid routes for `dest` lead from a node is shown.
    Route { node: usize, dest: usize },
    /// The copies in flight are shown.
    Flight,
}
