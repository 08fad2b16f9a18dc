//! One AODV router: the state of a node, and the inbox that its turns take from. Packets wait in
//! the inbox as bytes, and are read when they are taken. A call that is refused leaves the node as
//! it was, except that a turn still takes from the inbox a packet that can't be read or that names
//! an address outside the mesh.
#![tactic(auto)]

mod answers;
mod discovery;
mod heard;
mod meaning;
mod node;
mod rooms;
mod sound;
mod turns;

pub use answers::{AskError, SendError, TurnDone, TurnError, Unfit};
pub use node::Node;
