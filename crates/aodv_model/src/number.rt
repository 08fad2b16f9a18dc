//! Sequence numbers, and which of two entries is the better.
ghost use Rattle.std.specs.Prelude.{◌≡◌, ◌↔◌, IsNone, IfSome};
ghost use Rattle.aodv_model.specs.Quality.{inc, nsqn, is_better};

use crate::entry::{Entry, Flag};

/// The next sequence number, if 32 bits hold it (RFC 3561, section 6.1, without its rollover).
pub fn inc(n: u32) -> Option<u32>
    ensures greatest { IsNone result ↔ (n ≡ 4294967295) }
    ensures value { IfSome result (λ m. m ≡ inc n) }
{
    if n == 0 { Some(0) } else { n.checked_add(1) }
}

/// The net sequence number of an entry (AWN's nsqn).
pub fn nsqn(e: &Entry) -> u32
    ensures { result ≡ nsqn e.now }
{
    if e.flag == Flag::Val || e.dsn == 0 {
        e.dsn
    } else {
        e.dsn - 1
    }
}

/// Whether a is better than b: it has a greater net number, or the same one with fewer hops.
pub fn better(a: &Entry, b: &Entry) -> bool
    ensures { result ≡ is_better a.now b.now }
{
    let first = nsqn(a);
    let second = nsqn(b);
    second < first || first == second && a.hops < b.hops
}
