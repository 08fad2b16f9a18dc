//! Why a script is refused.

/// Bytes of a line, counted from 0. `to` is the first byte after them.
#[derive(Clone, Copy, Debug, PartialEq, Eq)]
pub struct Span {
    pub from: usize,
    pub to: usize,
}

/// What is wrong with a line, in the order in which faults are looked for.
#[derive(Clone, Copy, Debug, PartialEq, Eq)]
pub enum LineFault {
    /// The first word isn't a command.
    Word(Span),
    /// The line has the wrong number of words for its command, or another word in place of `sn`.
    Count,
    /// An address was expected.
    BadAddress(Span),
    /// A number in its range was expected.
    BadNumber(Span),
    /// A text of 1 to 512 bytes from the space to the tilde was expected.
    BadText(Span),
    /// A `node` line comes after a line that is neither blank nor a `node` line.
    Late,
    /// Another command comes before the first node.
    Early,
    /// The address is already that of a node.
    TwiceNode(Span),
    /// There are already 200 nodes.
    TooManyNodes,
    /// No node has the address.
    Unknown(Span),
    /// The two ends of a link are the same node.
    Same,
}

/// Why a run ends at a line: its fault, or a limit that it goes past.
#[derive(Clone, Copy, PartialEq, Eq)]
pub enum BadWhy {
    Fault(LineFault),
    /// The line has a 601st byte.
    TooLong,
    /// Byte 16777217 of the input, counted from 1, is in the line or is its LF.
    TooMuch,
}
