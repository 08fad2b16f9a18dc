//! Schedules that are made from a seed: a chain of nodes, a given number of lines that a random
//! number generator chooses, and a last `auto` in which all may come to rest. A schedule is written
//! to a sink, read from a source that makes it, or taken line by line as values. Nothing here takes
//! memory. That the run of a made schedule refuses none of its lines is a law of the definitions.
#![tactic(auto)]

mod laws;
mod maker;
mod sizes;
mod source;
mod step;
mod word;
mod writing;

pub use laws::{made_schedules_are_allowed, made_schedules_are_short};
pub use maker::Maker;
pub use sizes::MOST_STEPS;
pub use source::MadeSource;
pub use word::{next, start};
pub use writing::make;
