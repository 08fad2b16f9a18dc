//! Limits of a router on a socket.

/// The most bytes that are received of a datagram: the length of the longest route error that its
/// count of destinations allows, and a few more. Of a longer datagram the first bytes are received.
pub const MOST_RECEIVED: usize = 2049;
