//! What a line of a script says: its words, the forms of a command's arguments, the table of a
//! schedule's commands, and the faults for which a line is refused. A script of another program has
//! its own table, and takes all else from here.
//!
//! These are definitions for the contracts of other crates, with their laws; of these a program has
//! only the commands, forms and faults.
#![tactic(auto)]

mod command;
mod fault;
mod form;
mod laws;

pub use command::Command;
pub use fault::{BadWhy, LineFault, Span};
pub use form::Form;
pub use laws::{a_read_line_is_written, a_written_line_is_read};
