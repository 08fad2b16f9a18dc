//! The run of a schedule: its lines one after another, and the text that is written. What a run
//! writes and answers is the text and the verdict that mesh_text defines for the input's bytes. A
//! state of a run can be held, looked at, and gone on from, event by event. However its world was
//! made, no destination's valid routes have a loop, and the counts of its data add up.
#![tactic(auto)]

mod auto;
mod choice;
mod commands;
mod driving;
mod ends;
mod lines;
mod parts;
mod point;
mod running;
mod say;
mod show;
mod state;
mod status;
mod stop;
mod sums;
mod values;
mod variants;

pub use choice::{next_event, pick};
pub use commands::say_event;
pub use driving::{do_input, drive, run};
pub use ends::{finish, refuse, settle, why_past};
pub use lines::one;
pub use mesh_report::{BadWhy, Sums};
pub use point::Point;
pub use running::Running;
pub use say::Say;
pub use state::State;
pub use status::Status;
pub use stop::Stop;
pub use values::do_value;
pub use variants::variant_named;
