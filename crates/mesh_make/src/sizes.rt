//! The numbers of a made schedule.

/// The address of the first node, 10.0.0.1. Each next node has the next address.
pub const FIRST_ADDRESS: u32 = 167_772_161;

/// The most steps.
pub const MOST_STEPS: u32 = 100_000;

/// The count of an `auto` line among the steps.
pub const EVENTS_BETWEEN: u32 = 16;

/// The count of the last line, an `auto` line.
pub const EVENTS_AT_END: u32 = 100_000;
