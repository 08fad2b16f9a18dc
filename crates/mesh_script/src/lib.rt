//! The lines of a schedule, and those of the script of a router on a socket: what a line says, why
//! it is refused, and its canonical text. A router's peers and their ports are here too, since a
//! line of its script is allowed or refused by them.
//!
//! Nothing here takes memory: a line is read as parts of the bytes that it is given.
#![tactic(auto)]

mod command;
mod fast;
mod forms;
mod limits;
mod line;
mod node_command;
mod node_line;
mod node_parse;
mod node_print;
mod parse;
mod peers;
mod print;
mod shape;
mod words;

pub use forms::{Arguments, Read, arguments_of};
pub use limits::{GREATEST_PORT, MOST_AT_ONCE};
pub use line::Line;
pub use mesh_base::{ADDRESS_WIDTH, NUMBER_WIDTH};
pub use mesh_grammar::{Command, LineFault, Span};
pub use node_command::NodeCommand;
pub use node_line::NodeLine;
pub use node_parse::parse_node_line;
pub use node_print::{print_node_line, push_node_line};
pub use parse::{indexed, parse_line};
pub use peers::Peers;
pub use print::{
    ADDRESS_ARGUMENT, LONGEST_WRITTEN, NUMBER_ARGUMENT, print_line, push_event, push_line,
    push_written,
};
pub use words::{SpannedAddr, is_blank, is_word, next_at, span_at};
