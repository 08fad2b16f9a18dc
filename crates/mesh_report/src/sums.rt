//! What a run counts.
ghost use Rattle.std.specs.Prelude.{◌≡◌};

/// What was counted so far: events, those that were idle, the data that were given, delivered and
/// dropped, and the data packets that were doubled.
#[derive(Clone, Copy, PartialEq, Eq)]
pub struct Sums {
    /// Events that were done, idle ones too.
    pub events: u64,
    /// Events that were idle.
    pub idle: u64,
    /// Data that were given.
    pub given: u64,
    /// Data that were delivered.
    pub delivered: u64,
    /// Data that were dropped.
    pub lost: u64,
    /// Data packets that were doubled in flight.
    pub copied: u64,
}

impl Sums {
    /// Nothing was counted yet.
    pub fn new() -> Sums
        ensures { result ≡ record {
          events = 0;
          idle = 0;
          given = 0;
          delivered = 0;
          lost = 0;
          copied = 0;
        } }
    {
        Sums {
            events: 0,
            idle: 0,
            given: 0,
            delivered: 0,
            lost: 0,
            copied: 0,
        }
    }
}
