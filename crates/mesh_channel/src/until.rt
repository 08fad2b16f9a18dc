//! How long a line goes on whose events the channel chooses.
ghost use Rattle.std.specs.Prelude.{◌≡◌, ◌<◌, ◌≤◌, ◌^◌};
ghost use Rattle.mesh_channel.specs.Choices as choices;

use mesh_fates::GREATEST_TICK;

/// The greatest number of ticks that a line may let pass.
pub const MOST_TICKS: u32 = 1_000_000;
/// The last tick that a run may come to: a copy that is due later stays in flight.
pub const LAST_TICK: u64 = GREATEST_TICK;
/// Once this many events were done in a run, no line chooses another.
pub const MOST_CHOSEN: u64 = 70_368_744_177_664;

/// How long a line goes on.
#[derive(Clone, Copy)]
pub enum Until {
    /// Until this many events were done, and their tick is over.
    Events { count: u32 },
    /// Until this tick is over.
    Tick { last: u64 },
}

impl Until {
    /// Until this many ticks after this one are over, or the last tick of a run is.
    pub fn behind(tick: u64, count: u32) -> Until
        requires { tick ≤ LAST_TICK }
        ensures { result ≡ choices.tick_behind tick count }
    {
        let last = (tick + u64::from(count)).min(LAST_TICK);
        Until::Tick { last }
    }

    /// Whether enough was done, once a tick is over.
    pub fn is_enough(&self, did: u64) -> bool
        ensures { result ≡ choices.is_enough self.now did }
    {
        match *self {
            Until::Events { count } => u64::from(count) <= did,
            Until::Tick { .. } => false,
        }
    }

    /// The last tick that the line may come to.
    pub fn last_tick(&self) -> u64
        ensures { result ≡ choices.last_tick self.now }
    {
        match *self {
            Until::Events { .. } => LAST_TICK,
            Until::Tick { last } => last,
        }
    }
}
