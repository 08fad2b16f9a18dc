//! All nodes of a mesh and the radio between them: the world of the emulator. A step does one
//! event, as the definitions' step (mesh_model) does, so that no world ever has a cycle of next
//! hops, and no datum is invented, or lost without being counted.
#![tactic(auto)]

mod act;
mod choices;
mod event_counts;
mod nodes;
mod parts;
mod ready;
mod restored;
mod route;
mod steps;
mod totals;
mod world;

pub use event_counts::{EventCounts, event_counts_of};
pub use nodes::Nodes;
pub use restored::Part;
pub use route::End;
pub use steps::{StepError, Steps};
pub use totals::Totals;
pub use world::World;
