//! The limits of a checkpoint, besides those of a mesh.

/// The longest body, in bytes.
pub const LONGEST_BODY: u64 = 268_435_456;

/// Each sum of a run, and its number of lines, is below this: 2^60.
pub const SUMS_END: u64 = 1_152_921_504_606_846_976;

/// The most steps of a world: 2^45.
pub const MOST_STEPS: u64 = 35_184_372_088_832;

/// The greatest id of a next copy: 2^60.
pub const GREATEST_NEXT_ID: u64 = 1_152_921_504_606_846_976;

/// The longest packet in an inbox, in bytes: more than is ever sent, and as much as a router takes
/// from a socket.
pub const LONGEST_HEARD: u32 = 2049;

/// One more than the greatest length of a datum, in bytes.
pub const DATUM_END: u32 = 513;

/// One more than the greatest length of a packet in flight, in bytes.
pub const PACKET_END: u32 = 1605;

/// One more than the greatest number of two bytes.
pub const END16: u32 = 65_536;

/// One more than the greatest number of four bytes.
pub const END32: u64 = 4_294_967_296;

/// One more than the greatest number of nodes.
pub const NODES_END: u32 = 201;

/// By how much the key of a link rises when its first node rises by one.
pub(crate) const LINK_BASE: u64 = 65_536;
