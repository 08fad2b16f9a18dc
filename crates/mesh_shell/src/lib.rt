//! The shell of all programs that read lines: a script says what each line of an input does, and
//! one loop runs it from a source to a sink. Its contracts say, for schedules and for printed
//! texts, what is written and answered, whatever the script.
#![tactic(auto)]

mod driving;
mod fault;
pub mod laws;
mod limit;
mod lines;
mod reader;
mod runner;
mod script;
mod scripted;
mod starting;
mod words;

pub use driving::run;
pub use fault::Fault;
pub use limit::Limit;
pub use lines::run_lines;
pub use reader::LineReader;
pub use runner::Runner;
pub use script::Script;
pub use starting::{Program, start};
pub use words::{WordsError, texts_behind_name, words_of};
