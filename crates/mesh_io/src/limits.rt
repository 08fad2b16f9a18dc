//! The limits of the lines of an input.
ghost use Rattle.std.specs.Prelude.{◌≡◌};
ghost use Rattle.mesh_io.specs.NextLines.{schedule_limits, text_limits};

use mesh_base::{LONGEST_INPUT, LONGEST_LINE};

/// The most bytes of a line of a printed text, without its LF. The longest line that `mesh run`
/// writes, a route error cast to 200 nodes, has at most 6,420.
pub const LONGEST_TEXT_LINE: usize = 8192;

/// The most bytes of a printed text.
pub const LONGEST_TEXT: usize = 268_435_456;

/// The most bytes of a line, without its LF, and of an input.
#[derive(Clone, Copy)]
pub struct Limits {
    pub line: usize,
    pub input: usize,
}

impl Limits {
    /// The limits of a schedule.
    pub fn of_schedule() -> Limits
        ensures { result ≡ schedule_limits }
    {
        Limits {
            line: LONGEST_LINE,
            input: LONGEST_INPUT,
        }
    }

    /// The limits of a printed text.
    pub fn of_text() -> Limits
        ensures { result ≡ text_limits }
    {
        Limits {
            line: LONGEST_TEXT_LINE,
            input: LONGEST_TEXT,
        }
    }
}
