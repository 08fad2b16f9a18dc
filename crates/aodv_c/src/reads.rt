//! The exported functions that read a router. None of them changes it. `DONE` means that the value
//! was written; after any other answer the value is as it was.
ghost use Rattle.std.specs.Prelude.{◌≡◌, length, true, false};
ghost use Rattle.aodv_model.specs.Handlers.{may_send, may_ask};
ghost use Rattle.aodv_node.specs.Seen.{IsSoundNode};
ghost use Rattle.aodv_router.specs.Stations.{addrs_where};
ghost use Rattle.aodv_c.specs.Laid.{LaysAddrs};
ghost use Rattle.aodv_c.specs.Calls.{IsEntryCall, IsWaitingCall, IsSeenCall};

use crate::codes::{DONE, HOLDS_NOTHING, STRANGER};
use crate::handle::Handle;
use crate::outcome::{Addrs, Row, put_row};

/// How many items wait in the inbox. While there is one, a turn may be taken.
#[unsafe(no_mangle)]
pub extern "C" fn aodv_items(h: &mut Handle, count: &mut usize) -> u32
    ensures live { h.new.live ≡ h.old.live }
    ensures value { h.new.value ≡ h.old.value }
    ensures nothing { h.old.live ≡ false → (result ≡ HOLDS_NOTHING) × (count.new ≡ count.old) }
    ensures items { h.old.live ≡ true
        → (result ≡ DONE) × (count.new ≡ length h.old.value.node.items) }
{
    if !h.is_live() {
        return HOLDS_NOTHING;
    }
    *count = h.open().items();
    DONE
}

/// The addresses for which a datum may be sent: data wait, and there is a valid route.
#[unsafe(no_mangle)]
pub extern "C" fn aodv_sendable(h: &mut Handle, list: &mut Addrs) -> u32
    ensures live { h.new.live ≡ h.old.live }
    ensures value { h.new.value ≡ h.old.value }
    ensures nothing { h.old.live ≡ false → (result ≡ HOLDS_NOTHING) × (list.new ≡ list.old) }
    ensures list { h.old.live ≡ true → let s = h.old.value in
        (result ≡ DONE) × LaysAddrs (addrs_where s.nodes (λ d. may_send s.node.core d)) list.new }
{
    if !h.is_live() {
        return HOLDS_NOTHING;
    }
    let addrs = h.open().sendable();
    *list = Addrs::of(&addrs);
    DONE
}

/// The addresses for which a request may be made: data wait, a request is still to be made, and
/// there is no valid route.
#[unsafe(no_mangle)]
pub extern "C" fn aodv_askable(h: &mut Handle, list: &mut Addrs) -> u32
    ensures live { h.new.live ≡ h.old.live }
    ensures value { h.new.value ≡ h.old.value }
    ensures nothing { h.old.live ≡ false → (result ≡ HOLDS_NOTHING) × (list.new ≡ list.old) }
    ensures list { h.old.live ≡ true → let s = h.old.value in
        (result ≡ DONE) × LaysAddrs (addrs_where s.nodes (λ d. may_ask s.node.core d)) list.new }
{
    if !h.is_live() {
        return HOLDS_NOTHING;
    }
    let addrs = h.open().askable();
    *list = Addrs::of(&addrs);
    DONE
}

/// The router's own sequence number. A router that restarts has to begin above it.
#[unsafe(no_mangle)]
pub extern "C" fn aodv_number(h: &mut Handle, number: &mut u32) -> u32
    ensures live { h.new.live ≡ h.old.live }
    ensures value { h.new.value ≡ h.old.value }
    ensures nothing { h.old.live ≡ false → (result ≡ HOLDS_NOTHING) × (number.new ≡ number.old) }
    ensures number { h.old.live ≡ true
        → (result ≡ DONE) × (number.new ≡ h.old.value.node.core.sn) }
    ensures sound { h.old.live ≡ true → IsSoundNode h.old.value.node }
{
    if !h.is_live() {
        return HOLDS_NOTHING;
    }
    *number = h.open().sn();
    DONE
}

/// The table's entry for an address, if there is one.
#[unsafe(no_mangle)]
pub extern "C" fn aodv_entry(h: &mut Handle, dest: u32, row: &mut Row) -> u32
    ensures live { h.new.live ≡ h.old.live }
    ensures value { h.new.value ≡ h.old.value }
    ensures nothing { h.old.live ≡ false → (result ≡ HOLDS_NOTHING) × (row.new ≡ row.old) }
    ensures entry { h.old.live ≡ true → IsEntryCall h.old.value dest row.old result row.new }
{
    if !h.is_live() {
        return HOLDS_NOTHING;
    }
    let answer = h.open().entry(dest);
    put_row(&answer, row)
}

/// How many data wait for an address.
#[unsafe(no_mangle)]
pub extern "C" fn aodv_waiting(h: &mut Handle, dest: u32, count: &mut usize) -> u32
    ensures live { h.new.live ≡ h.old.live }
    ensures value { h.new.value ≡ h.old.value }
    ensures nothing { h.old.live ≡ false → (result ≡ HOLDS_NOTHING) × (count.new ≡ count.old) }
    ensures waiting { h.old.live ≡ true
        → IsWaitingCall h.old.value dest count.old result count.new }
{
    if !h.is_live() {
        return HOLDS_NOTHING;
    }
    match h.open().waiting(dest) {
        Ok(waiting) => {
            *count = waiting;
            DONE
        }
        Err(_) => STRANGER,
    }
}

/// Whether an originator's request with this id was seen. In variant 1 requests are told apart by
/// their originator's number, which is given here in place of the id.
#[unsafe(no_mangle)]
pub extern "C" fn aodv_seen(h: &mut Handle, originator: u32, id: u32, seen: &mut bool) -> u32
    ensures live { h.new.live ≡ h.old.live }
    ensures value { h.new.value ≡ h.old.value }
    ensures nothing { h.old.live ≡ false → (result ≡ HOLDS_NOTHING) × (seen.new ≡ seen.old) }
    ensures seen { h.old.live ≡ true
        → IsSeenCall h.old.value originator id seen.old result seen.new }
{
    if !h.is_live() {
        return HOLDS_NOTHING;
    }
    match h.open().has_seen(originator, id) {
        Ok(had) => {
            *seen = had;
            DONE
        }
        Err(_) => STRANGER,
    }
}
