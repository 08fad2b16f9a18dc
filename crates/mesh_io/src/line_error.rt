//! Why a line isn't given.
use thiserror::Error;

/// Why a line isn't given.
#[derive(Clone, Copy, Debug, PartialEq, Eq, Error)]
pub enum LineError {
    /// The source failed.
    #[error("a read failed")]
    ReadFault,
    /// The next byte of the line, or the LF that ends it, is one more than an input may have.
    #[error("the input is too long")]
    TooMuch,
    /// The line has one byte more than a line may have.
    #[error("the line is too long")]
    TooLong,
}
