//! The texts of a run, each written to a sink: a schedule's line, what an event did, a node's
//! state, a route's end, the copies in flight, and the last line.
//!
//! A call takes no memory, and fails only if the sink does.
#![tactic(auto)]

mod casts;
mod effects;
mod ends;
mod event;
mod line;
mod sums;
mod tables;
mod text;
mod turns;

pub use effects::{put_done, put_echoed_event, put_effect, put_event};
pub use ends::{Summary, put_auto_end, put_bad, put_full, put_summary};
pub use line::{put_echo, put_line};
pub use mesh_grammar::BadWhy;
pub use sums::Sums;
pub use tables::{
    put_asked, put_entry, put_flying, put_flying_view, put_number, put_stuck, put_waits,
};
