//! Bytes that were read, in one piece.
ghost use Rattle.std.specs.Prelude.{◌≡◌, ◌≤◌, ◌+◌, ◌-◌, ◌++◌, [], List, ℕ, length, take, drop, IfOk, OnErr};
ghost use Rattle.std.specs.Io.KnownBytes.{Consumes, IsAtEnd, Keeps};
ghost use Rattle.mesh_io.specs.Cause.{HasCause};

use crate::source::{Failed, Source};
use std::marker::Model;

/// How many bytes a read asks for.
pub const ASKED: usize = 4096;

/// Bytes that were read, in one piece: at most `CAPACITY`.
#[derive(Drop)]
pub struct ReadBuffer<const CAPACITY: usize> {
    store: [u8; CAPACITY],
    at: usize,
    end: usize,
}

impl<const CAPACITY: usize> Model for ReadBuffer<CAPACITY> {
    ghost use Rattle.std.specs.Prelude.{List, ℕ, ◌≤◌, ◌-◌, take, drop};

    ghost Value = { List ℕ };

    ghost view = { λ b. take (b.end - b.at) (drop b.at b.store) };

    ghost invariant = { λ b. (b.at ≤ b.end) × (b.end ≤ CAPACITY) };
}

// Reads into the store, after its first n bytes.
fn read_behind<S: Source>(source: &mut S, store: &mut [u8], n: usize) -> Result<usize, Failed>
    requires { n + ASKED ≤ length store.old }
    ensures size { length store.new ≡ length store.old }
    ensures kept { take n store.new ≡ take n store.old }
    ensures bound { IfOk result (λ k. k ≤ ASKED) }
    ensures taken { IfOk result (λ k.
        Consumes (S.left source.old) (S.left source.new) (take k (drop n store.new))) }
    ensures end { IfOk result (λ k. k ≡ 0 → IsAtEnd (S.left source.new)) }
    ensures refused { OnErr result (Keeps (S.left source.old) (S.left source.new)) }
    ensures cause { HasCause (S.faults source.old) (S.faults source.new) result }
{
    source.take(&mut store[n..n + ASKED])
}

impl<const CAPACITY: usize> ReadBuffer<CAPACITY> {
    /// No bytes.
    pub fn new() -> ReadBuffer<CAPACITY>
        ensures { result ≡ [] }
    {
        ReadBuffer {
            store: [0; CAPACITY],
            at: 0,
            end: 0,
        }
    }

    /// The bytes.
    pub fn bytes(&self) -> &[u8]
        ensures { result.now ≡ self.now }
    {
        let store = &self.store[..];
        &store[self.at..self.end]
    }

    /// Removes the first n bytes.
    pub fn drop_front(&mut self, n: usize)
        requires { n ≤ length self.old }
        ensures { self.new ≡ drop n self.old }
    {
        self.at += n;
    }

    /// Adds the bytes of one read of the source, and returns how many there are: none only at its
    /// end.
    pub fn read<S: Source>(&mut self, source: &mut S) -> Result<usize, Failed>
        requires { length self.old + ASKED ≤ CAPACITY }
        ensures more { IfOk result (λ n. (fresh : List ℕ) × (self.new ≡ self.old ++ fresh)
            × (length fresh ≡ n) × Consumes (S.left source.old) (S.left source.new) fresh
            × (n ≡ 0 → IsAtEnd (S.left source.new))) }
        ensures same { OnErr result (self.new ≡ self.old) }
        ensures kept { OnErr result (Keeps (S.left source.old) (S.left source.new)) }
        ensures cause { HasCause (S.faults source.old) (S.faults source.new) result }
    {
        let len = self.end - self.at;
        self.store.copy_within(self.at..self.end, 0);
        self.at = 0;
        self.end = len;
        let n = read_behind(source, &mut self.store, len)?;
        self.end = len + n;
        Ok(n)
    }
}
