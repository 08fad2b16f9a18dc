//! How a channel treats copies.

/// The greatest rate, in thousandths: always.
pub const GREATEST_RATE: u16 = 1000;
/// The greatest delay, in ticks.
pub const GREATEST_DELAY: u16 = 1000;

/// The rates at which a channel loses and doubles copies, in thousandths, and the most ticks by
/// which it may delay them. A channel whose rates and greatest delay are 0 loses, delays and
/// doubles nothing.
#[derive(Clone, Copy)]
pub struct Rates {
    /// Of the copies of broadcasts and groupcasts, 0 to 1000.
    pub loss: u16,
    /// Of the copies of unicasts, 0 to 1000.
    pub loss_unicast: u16,
    /// The greatest delay in ticks, 0 to 1000; all delays up to it are about equally likely.
    pub late: u16,
    /// Of all copies that are cast, 0 to 1000.
    pub double: u16,
}
