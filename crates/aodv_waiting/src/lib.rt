//! The store of a node: data that wait for a route to their destination (RFC 3561, section 6.3;
//! AWN's queues of data packets), and for which destinations a route request is still to be made.
//! Room is made before a datum comes, so that adding it takes no memory.
#![tactic(auto)]

mod row;
mod waiting;

pub use waiting::Waiting;
