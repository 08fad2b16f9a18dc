//! A world that keeps an honest walk for each valid route: the nodes from the destination to the
//! node that has the route, each linked to the next at some time. A walk goes with the requests and
//! replies that announce the route, and from them into the entries of tables. `mesh_model` defines
//! which list each entry, each message in a queue and each copy in flight has, and what each event
//! does to these lists; the laws here say that they stay walks.
#![tactic(auto)]

mod casts;
mod hands;
mod heard;
pub mod laws;
mod lists;
mod parts;
mod said;
mod trail;
mod walk;

pub use trail::Trail;
