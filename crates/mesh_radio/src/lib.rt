//! The links of a mesh and the copies of packets in flight: who is in range of whom, and what a
//! cast puts in the radio. A copy stays in flight, whatever happens to its link, until it is taken
//! out. Room is made before a cast, so that a cast can't fail.
#![tactic(auto)]

mod adjacency;
mod casts;
mod clearing;
mod copies;
mod gathering;
mod hashes;
mod joining;
mod positions;
mod radio;
mod reserve;
mod size_class;

pub use copies::Held;
pub use radio::Radio;
