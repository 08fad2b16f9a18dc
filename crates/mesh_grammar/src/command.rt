//! The commands of a schedule.

/// The first word of a line.
#[derive(Clone, Copy, PartialEq, Eq)]
pub enum Command {
    Node,
    Link,
    Cut,
    Data,
    Turn,
    Send,
    Ask,
    Deliver,
    Lose,
    Copy,
    Auto,
    Show,
    Route,
    Flight,
}
