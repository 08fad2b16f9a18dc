//! When a copy is due.

/// A copy, by its number, and the tick in which it is due. They are ordered by tick, and then by
/// number.
#[derive(Clone, Copy, PartialEq, Eq, PartialOrd, Ord)]
pub struct Due {
    pub tick: u64,
    pub id: u64,
}
