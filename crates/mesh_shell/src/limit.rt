//! The limits of an input.

/// A limit that an input goes past.
#[derive(Clone, Copy, PartialEq, Eq)]
pub enum Limit {
    /// A line has one byte more than a line may have.
    Line,
    /// The input has one byte more than an input may have.
    Input,
}
