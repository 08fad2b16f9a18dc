//! A router as a program in another language holds it.
ghost use Rattle.std.specs.Prelude.{◌≡◌, true, false};
ghost use Rattle.std.specs.Borrow.{sem};
ghost use Rattle.aodv_router.specs.Stations.{Station, station_code};

use crate::loose::Loose;
use aodv_router::Router;
use std::alloc::Global;
use std::marker::Model;
use std::ptr::null_mut;

/// A router on the heap, or none. The caller makes a handle of zeros, and never writes to it again.
/// It isn't `Drop`, so none is dropped where a body ends: `into_loose` takes apart a handle that
/// holds a router, and `let_go` one that holds nothing.
#[repr(C)]
pub struct Handle {
    at: *mut u8,
    /// Whether it holds a router.
    pub live: bool,
    pub ghost value: { Station } by { station_code },
}

impl Model for Handle {
    ghost use Rattle.aodv_c.specs.Holding.{holds};

    ghost also_owns = { λ h. holds h.live h.at h.value };
}

unsafe impl Send for Handle {}

impl Handle {
    ghost use Rattle.aodv_c.specs.Lending.{LendsRouter};

    /// A handle that holds nothing.
    pub(crate) fn empty() -> Handle
        ensures { result.live ≡ false }
    {
        Handle {
            at: null_mut(),
            live: false,
        }
    }

    /// A handle over what is in the box.
    pub(crate) fn of(l: Loose<Router, Global>) -> Handle
        ensures { (result.live ≡ true) × (result.value ≡ l.value) }
    {
        let Loose { at, alloc: _ } = l;
        Handle {
            at: at as *mut u8,
            live: true,
        }
    }

    /// What the handle held. The handle is used up.
    pub(crate) fn into_loose(self, alloc: Global) -> Loose<Router, Global>
        requires { self.live ≡ true }
        ensures { result.value ≡ self.value }
    {
        let Handle { at, live: _ } = self;
        Loose {
            at: at as *mut Router,
            alloc,
        }
    }

    /// Takes apart a handle that holds nothing.
    pub(crate) fn let_go(self)
        requires { self.live ≡ false }
    {
        let Handle { at: _, live: _ } = self;
    }

    /// Whether it holds something.
    pub fn is_live(&mut self) -> bool
        ensures { (result ≡ self.old.live) × (self.new ≡ self.old) }
    {
        self.live
    }

    /// Lends what the handle holds.
    pub fn open(&mut self) -> &mut Router
        requires { self.old.live ≡ true }
        ensures* writes_back { sem 𝓛 (LendsRouter self.entry result) }
        ensures value { result.now ≡ self.old.value }
    {
        unsafe { &mut *(self.at as *mut Router) }
    }
}

// A handle may go to another thread: the call below needs the proof of that.
fn moved<T: Send>(x: T) -> T {
    x
}

fn sent(h: Handle) -> Handle {
    moved(h)
}
