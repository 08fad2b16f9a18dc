//! Writing the checkpoint of a state, and the bytes of one node.
#![tactic(auto)]

mod body;
mod encoder;
mod fields;
mod inbox;
mod node;
mod page;
mod radio_part;
mod requests;
mod routes;
mod saving;
mod store;

pub use page::append_node;
pub use saving::{SaveError, save};
