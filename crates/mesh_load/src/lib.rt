//! Reading the state of a run from a checkpoint's bytes, or why no run goes on from them.
#![tactic(auto)]

mod error;
mod laws;
mod loading;
mod nodes;
mod world;

pub use error::StateError;
pub use laws::{a_run_is_plain, a_run_is_unrefused, one_run_state, one_start};
pub use loading::load;
