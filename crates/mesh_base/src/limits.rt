//! The limits of a mesh, of its packets, of a script's lines, and of its input. Sizes are in bytes.

/// The most nodes of a mesh.
pub const MOST_NODES: usize = 200;

/// The longest packet that is written: a route error of 200 destinations.
pub const LONGEST_PACKET: usize = 1604;

/// The longest body of a datum.
pub const LONGEST_DATUM: usize = 512;

/// The longest line of a script, without its LF.
pub const LONGEST_LINE: usize = 600;

/// The longest input.
pub const LONGEST_INPUT: usize = 16_777_216;

/// The most events that one `auto` line does.
pub const MOST_EVENTS: u64 = 1_000_000;

/// The most bytes of a line that is put together before it is written.
pub const LINE_CAPACITY: usize = 8192;

/// The most bytes of a written address: four numbers of three digits, and three dots.
pub const ADDRESS_WIDTH: usize = 4 * 3 + 3;

/// The most bytes of a written number of 64 bits.
pub const NUMBER_WIDTH: usize = 20;
