//! A sink behind a reference.
ghost use Rattle.std.specs.Prelude.{◌≡◌, ℕ, List, Option, None};
ghost use Rattle.mesh_io.specs.Growth.{known_front};

use crate::sink::Sink;
use crate::source::Failed;
use std::marker::{Brand, PhantomData};

/// One borrow of a sink, so that a type can name it: which reference it is, and what the sink held
/// when the borrow began.
pub trait Loan {
    /// The reference's ghost name.
    ghost name: { ℕ };

    /// The bytes that the sink held, if they are known.
    ghost start: { Option (List ℕ) };
}

impl Loan for Brand {
    ghost name = { 0 };

    ghost start = { None };
}

/// The sink behind a reference. Its type says which borrow it is. So whatever a call that gets it
/// does, the reference stays in place, and the bytes that the sink holds only grow.
#[derive(Drop)]
pub struct Through<'s, O: Sink, L: Loan> {
    pub to: &'s mut O,
    pub loan: PhantomData<L>,
    pub ghost same: { to.ghost_name ≡ L.name },
    pub ghost grown: { known_front L.start (O.held to.now) ≡ L.start },
}

impl<'s, O: Sink, L: Loan> Through<'s, O, L> {
    /// The sink behind this reference.
    pub fn new(to: &'s mut O) -> Through<'s, O, L>
        requires name { to.ghost_name ≡ L.name }
        requires start { O.held to.old ≡ L.start }
        ensures { result.to.now ≡ to.old }
    {
        Through {
            to,
            loan: PhantomData,
        }
    }
}

impl<O: Sink, L: Loan> Sink for Through<'_, O, L> {
    ghost held = { λ t. O.held t.to.now };

    ghost faults = { λ t. O.faults t.to.now };

    fn put(&mut self, piece: &[u8]) -> Result<usize, Failed> {
        self.to.put(piece)
    }
}
