//! A router with its mesh, in addresses, for programs that bring their own radio. Each call takes
//! any values, even addresses of no node and bytes that encode nothing. A call that is refused says
//! why and leaves the router as it was, except that a turn still takes from the inbox a packet that
//! can't be read or that names a stranger.
//!
//! An address is a number of 32 bits, such as 0x0A000001 for 10.0.0.1. The program that runs a
//! router hands it the packets that its neighbours cast, and casts the packets that it answers
//! with. `turn` and `send` take the addresses that are near: those that a unicast would reach now.
//!
//! What is proved is about one router: each call does what AODV's handlers do, as the model of one
//! node says. That no mesh of nodes has a loop is proved of worlds in which all nodes do so and
//! packets arrive as they were sent, or not at all. It isn't claimed of routers in processes of
//! their own, since nothing here says that the other routers do the same.
#![tactic(auto)]

mod answers;
mod indices;
mod mesh;
mod outcome;
mod reads;
mod router;
mod tells;

pub use answers::{AskError, GiveError, HearError, NewError, SendError, Stranger, TurnError};
pub use outcome::{Addrs, Body, Casting, Outcome, Row, Taken};
pub use router::Router;
