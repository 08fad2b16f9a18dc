//! How a run ended.

/// How the run of an input ended. Lines are counted from 1.
#[derive(Clone, Copy, Debug, PartialEq, Eq)]
pub enum Verdict {
    /// The whole input was read, and every line was allowed and done.
    Finished,
    /// The line of this number was refused.
    RefusedAt(u64),
    /// An event of the line of this number was refused, because it would raise a counter past its
    /// field's greatest value.
    FullAt(u64),
}
