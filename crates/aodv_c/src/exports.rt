//! The exported functions that make a router, and make it act. If the handle holds nothing, each of
//! them except `aodv_new` and `aodv_free` says so and changes nothing. A refusal leaves the router
//! as it was, except that a turn still takes from the inbox a packet that can't be read or that
//! names a stranger.
ghost use Rattle.std.specs.Prelude.{◌≡◌, ◌≢◌, ◌↔◌, [], Ok, Err, Some, None, IsOk, true, false};
ghost use Rattle.mesh_base.specs.Meshes.{index_of};
ghost use Rattle.mesh_base.specs.declared.events.Variant.{Variant as a_variant};
ghost use Rattle.aodv_model.specs.Cores.{opening};
ghost use Rattle.aodv_router.specs.declared.answers.NewError.{NewError as an_error};
ghost use Rattle.aodv_router.specs.Meshes.{mesh_of};
ghost use Rattle.aodv_c.specs.Codes.{new_code, variant_of};
ghost use Rattle.aodv_c.specs.Calls.{IsHearCall, IsGiveCall, IsTurnCall, IsSendCall, IsAskCall};

use crate::codes::{
    DONE, HOLDS_NOTHING, HOLDS_ONE, NO_MEMORY, NO_VARIANT, VERSION, give_code, hear_code, new_code,
    variant_of,
};
use crate::handle::Handle;
use crate::loose::Loose;
use crate::outcome::{Outcome, put_ask, put_send, put_turn};
use aodv_router::{NewError, Router};
use mesh_base::Variant;
use std::alloc::Global;
use std::mem::replace;

/// The version of this interface.
#[unsafe(no_mangle)]
pub extern "C" fn aodv_version() -> u32
    ensures { result ≡ VERSION }
{
    VERSION
}

/// Makes a router in a handle that holds nothing. The mesh has exactly these addresses, `me` is the
/// router's own, and `first` its first sequence number. Variant 0 is the protocol as AWN has it; in
/// 1 requests are told apart by their originator's number; in 2 any node with a valid route passes
/// a reply on; in 3 errors are broadcast. A call is refused for the first that applies of
/// HOLDS_ONE, NO_VARIANT and ZERO_NUMBER, then of TWICE and TOO_MANY at the first address that
/// can't join those before it, then of NOT_THERE.
#[unsafe(no_mangle)]
pub extern "C" fn aodv_new(
    alloc: Global,
    h: &mut Handle,
    addrs: &[u32],
    me: u32,
    first: u32,
    variant: u32,
) -> u32
    ensures one { result ≡ HOLDS_ONE ↔ (h.old.live ≡ true) }
    ensures variant { h.old.live ≡ false → (result ≡ NO_VARIANT ↔ (variant_of variant ≡ None)) }
    ensures live { result ≡ DONE → h.new.live ≡ true }
    ensures mesh { result ≡ DONE → mesh_of addrs.now me first ≡ Ok h.new.value.nodes }
    ensures me { result ≡ DONE → index_of h.new.value.nodes me ≡ Some h.new.value.node.core.ip }
    ensures core { result ≡ DONE → (v : a_variant) × (variant_of variant ≡ Some v)
        × (h.new.value.node.core ≡ opening v h.new.value.node.core.ip first) }
    ensures items { result ≡ DONE → h.new.value.node.items ≡ [] }
    ensures refused { result ≢ DONE → h.new ≡ h.old }
    ensures why { result ≢ DONE → result ≢ HOLDS_ONE → result ≢ NO_VARIANT → result ≢ NO_MEMORY
        → (e : an_error) × (mesh_of addrs.now me first ≡ Err e) × (result ≡ new_code e) }
    ensures short { result ≡ NO_MEMORY → IsOk (mesh_of addrs.now me first) }
{
    if h.is_live() {
        return HOLDS_ONE;
    }
    let Some(variant) = variant_of(variant) else {
        return NO_VARIANT;
    };
    match Router::new(alloc, addrs, me, first, variant) {
        Ok(router) => match Box::new(alloc, router) {
            Ok(boxed) => {
                replace(h, Handle::of(Loose::of(boxed))).let_go();
                DONE
            }
            Err(_) => NO_MEMORY,
        },
        Err(why) => new_code(why),
    }
}

/// Frees what the handle holds; the handle then holds nothing. A handle that holds nothing stays
/// so.
#[unsafe(no_mangle)]
pub extern "C" fn aodv_free(alloc: Global, h: &mut Handle)
    ensures { h.new.live ≡ false }
{
    if !h.is_live() {
        return;
    }
    let held = replace(h, Handle::empty());
    let _router = held.into_loose(alloc).into_box();
}

/// A packet that a neighbour has cast joins the inbox, whatever its bytes are.
#[unsafe(no_mangle)]
pub extern "C" fn aodv_hear(alloc: Global, h: &mut Handle, from: u32, bytes: &[u8]) -> u32
    ensures live { h.new.live ≡ h.old.live }
    ensures nothing { h.old.live ≡ false → (result ≡ HOLDS_NOTHING) × (h.new ≡ h.old) }
    ensures hear { h.old.live ≡ true → IsHearCall h.old.value from bytes.now result h.new.value }
    ensures refused { result ≢ DONE → h.new.value ≡ h.old.value }
{
    if !h.is_live() {
        return HOLDS_NOTHING;
    }
    let answer = h.open().hear(alloc, from, bytes);
    hear_code(answer)
}

/// A datum for an address joins the inbox.
#[unsafe(no_mangle)]
pub extern "C" fn aodv_give(alloc: Global, h: &mut Handle, dest: u32, body: &[u8]) -> u32
    ensures live { h.new.live ≡ h.old.live }
    ensures nothing { h.old.live ≡ false → (result ≡ HOLDS_NOTHING) × (h.new ≡ h.old) }
    ensures give { h.old.live ≡ true → IsGiveCall h.old.value dest body.now result h.new.value }
    ensures refused { result ≢ DONE → h.new.value ≡ h.old.value }
{
    if !h.is_live() {
        return HOLDS_NOTHING;
    }
    let answer = h.open().give(alloc, dest, body);
    give_code(answer)
}

/// Takes the front item of the inbox, and does what AODV does with it. `near` has the addresses in
/// range now: a unicast to any other fails.
#[unsafe(no_mangle)]
pub extern "C" fn aodv_turn(h: &mut Handle, near: &[u32], out: &mut Outcome) -> u32
    ensures live { h.new.live ≡ h.old.live }
    ensures nothing { h.old.live ≡ false
        → (result ≡ HOLDS_NOTHING) × (h.new ≡ h.old) × (out.new ≡ out.old) }
    ensures turn { h.old.live ≡ true
        → IsTurnCall h.old.value near.now out.old result h.new.value out.new }
    ensures refused { result ≢ DONE → out.new ≡ out.old }
{
    if !h.is_live() {
        return HOLDS_NOTHING;
    }
    let answer = h.open().turn(near);
    put_turn(&answer, out)
}

/// Sends the first datum that waits for an address to the next hop, if there is a valid route.
#[unsafe(no_mangle)]
pub extern "C" fn aodv_send(h: &mut Handle, near: &[u32], dest: u32, out: &mut Outcome) -> u32
    ensures live { h.new.live ≡ h.old.live }
    ensures nothing { h.old.live ≡ false
        → (result ≡ HOLDS_NOTHING) × (h.new ≡ h.old) × (out.new ≡ out.old) }
    ensures send { h.old.live ≡ true
        → IsSendCall h.old.value near.now dest out.old result h.new.value out.new }
    ensures refused { result ≢ DONE → (h.new.value ≡ h.old.value) × (out.new ≡ out.old) }
{
    if !h.is_live() {
        return HOLDS_NOTHING;
    }
    let answer = h.open().send(near, dest);
    put_send(&answer, out)
}

/// Asks all neighbours for a route to an address, if data wait for it, there is no valid route, and
/// a request is still to be made.
#[unsafe(no_mangle)]
pub extern "C" fn aodv_ask(h: &mut Handle, dest: u32, out: &mut Outcome) -> u32
    ensures live { h.new.live ≡ h.old.live }
    ensures nothing { h.old.live ≡ false
        → (result ≡ HOLDS_NOTHING) × (h.new ≡ h.old) × (out.new ≡ out.old) }
    ensures ask { h.old.live ≡ true
        → IsAskCall h.old.value dest out.old result h.new.value out.new }
    ensures refused { result ≢ DONE → (h.new.value ≡ h.old.value) × (out.new ≡ out.old) }
{
    if !h.is_live() {
        return HOLDS_NOTHING;
    }
    let answer = h.open().ask(dest);
    put_ask(&answer, out)
}
