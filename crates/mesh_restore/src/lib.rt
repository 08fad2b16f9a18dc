//! The parts of a run, read from its checkpoint: the mesh, each node, and the links with the copies
//! in flight. Each part is made from what a reader of `mesh_checkpoint` yields.
#![tactic(auto)]

mod copies;
mod error;
mod inbox;
mod links;
mod mesh;
mod node;
mod radio_part;
mod requests;
mod routes;
mod store;

pub use error::ReadError;
pub use mesh::read_mesh;
pub use node::read_node;
pub use radio_part::read_radio;
