//! The limits of a router's script.

/// The most datagrams that one `poll` line receives, and the most turns that one `turn` line does.
pub const MOST_AT_ONCE: u64 = 1000;

/// The greatest port.
pub const GREATEST_PORT: u64 = 65535;
