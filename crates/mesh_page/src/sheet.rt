//! A sink in the memory of a caller.
ghost use Rattle.std.specs.Prelude.{◌≡◌, ◌≢◌, ◌≤◌, ◌+◌, ◌-◌, ◌++◌, ℕ, List, [], Some, length, take, drop, min};

use mesh_io::{Failed, Sink};
use std::marker::{Brand, PhantomData};

/// One borrow of memory, as a type: which reference it is, and the bytes that were there when the
/// borrow began.
pub trait Lent {
    /// The reference's ghost name.
    ghost name: { ℕ };

    /// The bytes at the start.
    ghost start: { List ℕ };
}

impl Lent for Brand {
    ghost name = { 0 };

    ghost start = { [] };
}

/// Memory that is written from its start on, up to its end. Its type says which borrow it is, so
/// that, whatever a call does that is given it, the reference stays the same; what comes after the
/// bytes that were put is as it was; and once a put has failed, there is no room left.
#[derive(Drop)]
pub struct Sheet<'s, L: Lent> {
    memory: &'s mut [u8],
    len: usize,
    failed: u64,
    lent: PhantomData<L>,
    pub ghost same: { memory.ghost_name ≡ L.name },
    pub ghost room: { length memory.now ≡ length L.start },
    pub ghost fits: { len ≤ length L.start },
    pub ghost behind: { drop len memory.now ≡ drop len L.start },
    pub ghost full: { failed ≢ 0 → len ≡ length L.start },
}

// Copies the longest prefix of the piece that fits into the memory from an offset on, and returns
// its length.
fn lay(memory: &mut [u8], at: usize, piece: &[u8]) -> usize
    requires { at ≤ length memory.old }
    ensures count { result ≡ min (length piece.now) (length memory.old - at) }
    ensures room { length memory.new ≡ length memory.old }
    ensures laid { take (at + result) memory.new ≡ take at memory.old ++ take result piece.now }
    ensures behind { drop (at + result) memory.new ≡ drop (at + result) memory.old }
{
    let n = piece.len().min(memory.len() - at);
    memory[at..at + n].copy_from_slice(&piece[..n]);
    n
}

impl<'s, L: Lent> Sheet<'s, L> {
    /// A sheet with nothing put yet.
    pub fn new(memory: &'s mut [u8]) -> Sheet<'s, L>
        requires name { memory.ghost_name ≡ L.name }
        requires start { memory.old ≡ L.start }
        ensures memory { result.memory.now ≡ memory.old }
        ensures len { result.len ≡ 0 }
        ensures failed { result.failed ≡ 0 }
    {
        Sheet {
            memory,
            len: 0,
            failed: 0,
            lent: PhantomData,
        }
    }

    /// How many bytes were put.
    pub fn len(&self) -> usize
        ensures { result ≡ self.now.len }
    {
        self.len
    }

    /// Gives the reference back.
    pub fn give_back(self) -> &'s mut [u8]
        ensures name { result.ghost_name ≡ L.name }
        ensures memory { result.now ≡ self.entry.memory.now }
    {
        let Sheet {
            memory,
            len: _,
            failed: _,
            lent: _,
        } = self;
        memory
    }
}

impl<L: Lent> Sink for Sheet<'_, L> {
    ghost held = { λ s. Some (take s.len s.memory.now) };

    ghost faults = { λ s. s.failed };

    fn put(&mut self, piece: &[u8]) -> Result<usize, Failed> {
        if self.len == self.memory.len() {
            self.failed = self.failed.saturating_add(1);
            return Err(Failed);
        }
        let n = lay(self.memory, self.len, piece);
        self.len += n;
        Ok(n)
    }
}
