//! The bytes of a checkpoint: the table of its body, and whether bytes are one.
#![tactic(auto)]

mod body;
mod laws;
mod limits;
pub mod numbers;
mod part;
mod parts;
pub mod reading;
mod validating;

pub use body::{Head, read_head};
pub use laws::{
    balanced_is_taken, fitting_is_state, fitting_is_written, one_body, one_checkpoint, one_refusal,
    one_state, read_is_written, written_is_read,
};
pub use limits::{END16, END32, GREATEST_NEXT_ID, LONGEST_BODY, MOST_STEPS, NODES_END, SUMS_END};
pub use validating::{ValidateError, validate};
