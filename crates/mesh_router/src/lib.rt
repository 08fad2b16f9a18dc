//! One router on a socket: what each line of its script makes it do, what is written of that, and
//! what it sends and receives, over any source, sink and link.
#![tactic(auto)]

mod casts;
mod ends;
mod limits;
mod lines;
mod point;
mod polls;
mod router;
mod run;
mod status;
mod steps;
mod stop;
mod turns;

pub use point::Point;
pub use router::Router;
pub use run::run_script;
pub use status::NodeStatus;
pub use stop::{Scratch, Stop};
