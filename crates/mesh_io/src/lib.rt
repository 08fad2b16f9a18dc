//! Where the bytes of a run come from and where its text goes: sources and sinks with a count of
//! their faults, in memory and over std's readers and writers, the lines of a source, and a buffer
//! before a sink. A reader that fails is told from one that ends, and each refusal by a source or a
//! sink has a fault as its cause.
#![tactic(auto)]

mod buffered;
mod calls;
mod cutter;
mod decision;
mod limits;
mod line_error;
mod lines;
mod mem_sink;
mod mem_source;
mod put;
mod read_buffer;
mod reserved_buffer;
mod sink;
mod source;
mod stream;
mod sure;
mod through;

pub use buffered::Buffered;
pub use calls::Calls;
pub use cutter::{Cutter, SCHEDULE_CAPACITY, TEXT_CAPACITY};
pub use limits::{LONGEST_TEXT, LONGEST_TEXT_LINE, Limits};
pub use line_error::LineError;
pub use lines::{Lines, LinesWithin, LongLines};
pub use mem_sink::MemSink;
pub use mem_source::MemSource;
pub use put::{PutFault, put_all};
pub use reserved_buffer::ReservedBuffer;
pub use sink::Sink;
pub use source::{Failed, Source};
pub use stream::{StdSink, StdSource};
pub use sure::{SureSink, SureSource};
pub use through::{Loan, Through};
