//! The text that shows a router: its own number, the requests that it has seen, its table, its
//! waiting data, and how many items its inbox has. The emulator and a router on a socket show a
//! node in the same way.
#![tactic(auto)]

mod node;

pub use node::put_node;
