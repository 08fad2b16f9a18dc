//! What the bytes of a packet mean in a mesh: the router's messages name nodes by their index, its
//! packets by their address. Definitions and laws alone; the crates that handle packets cite them.
#![tactic(auto)]

mod laws;

pub use laws::{sent_means, spelled_is_in_mesh, written_is_sent};
