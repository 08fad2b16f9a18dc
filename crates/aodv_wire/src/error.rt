//! Why bytes encode no message.
use mesh_base::Addr;
use thiserror::Error;

/// Why bytes encode no message: the first reason that applies, in this order.
#[derive(Clone, Copy, Debug, PartialEq, Eq, Error)]
pub enum WireError {
    /// There is no byte.
    #[error("no byte")]
    Short,
    /// The first byte is not a type that is read here.
    #[error("unknown type {0}")]
    UnknownType(u8),
    /// A packet of this type doesn't have this length.
    #[error("wrong length for its type")]
    WrongLength,
    /// A flag or a prefix size asks for a part of RFC 3561 that isn't supported here.
    #[error("a flag or a prefix size outside this profile")]
    OutsideProfile,
    /// A sequence number that has to be at least 1 is 0.
    #[error("sequence number 0")]
    ZeroNumber,
    /// A route error names no destination.
    #[error("no destination")]
    NoDestinations,
    /// A route error names a destination twice: this one, the first in the order of its pairs that
    /// an earlier pair has too.
    #[error("a destination named twice")]
    Repeated(Addr),
    /// One of a data packet's bytes 1 to 3 isn't 0.
    #[error("a data packet's first line is wrong")]
    BadData,
}
