//! Memory in which bytes are gathered.
ghost use Rattle.std.specs.Prelude.{◌≡◌, ◌≤◌, ◌+◌, ◌-◌, ◌↔◌, ◌++◌, [], length, take, drop, min, IfOk, IsTrue};
ghost use Rattle.mesh_base.specs.InlineBytes.{inline_bytes};
ghost use Rattle.mesh_io.specs.BufferSize.{buffer_size};

use mesh_base::{NoMemory, ShortText};
use std::alloc::Global;
use std::marker::Model;

/// How many bytes a buffer has room for.
const SIZE: usize = 65536;

/// How many bytes the array of a short text has.
pub(crate) const WHOLE: usize = 16;

/// Memory for 65536 bytes. In contracts it is the bytes that are gathered in it.
#[derive(Drop)]
pub struct ReservedBuffer {
    // Always 65536 bytes. A piece is copied over some of them, so the vector never grows.
    cells: Vec<u8>,
    // How many of them, from the first on, are gathered bytes.
    len: usize,
}

impl Model for ReservedBuffer {
    ghost use Rattle.std.specs.Prelude.{List, ℕ, ◌≡◌, ◌≤◌, length, take};
    ghost use Rattle.mesh_io.specs.BufferSize.{buffer_size};

    ghost Value = { List ℕ };

    ghost view = { λ r. take r.len r.cells.items };

    ghost invariant = { λ r. (r.len ≤ buffer_size) × (length r.cells.items ≡ buffer_size) };
}

impl ReservedBuffer {
    /// Memory in which nothing is gathered yet.
    pub fn new(alloc: Global) -> Result<ReservedBuffer, NoMemory>
        ensures { IfOk result (λ room. room ≡ []) }
    {
        Ok(ReservedBuffer {
            cells: vec![in alloc; 0; SIZE]?,
            len: 0,
        })
    }

    /// The bytes that are gathered.
    pub(crate) fn bytes(&self) -> &[u8]
        ensures { result.now ≡ self.now }
    {
        &self.cells[..self.len]
    }

    /// Whether there is no room for one more.
    pub(crate) fn is_full(&self) -> bool
        ensures full { IsTrue result ↔ (buffer_size ≤ length self.now) }
        ensures most { length self.now ≤ buffer_size }
    {
        self.len == SIZE
    }

    /// Gathers as much of the piece as there is room for, and returns how many bytes.
    pub(crate) fn gather(&mut self, piece: &[u8]) -> usize
        ensures count { result ≡ min (length piece.now) (buffer_size - length self.old) }
        ensures gathered { self.new ≡ self.old ++ take result piece.now }
    {
        let n = piece.len().min(SIZE - self.len);
        let end = self.len + n;
        self.cells[self.len..end].copy_from_slice(&piece[..n]);
        self.len = end;
        n
    }

    /// Whether there is room for the whole array of a short text.
    #[inline(always)]
    pub(crate) fn fits_short(&self) -> bool
        ensures { IsTrue result ↔ (length self.now + WHOLE ≤ buffer_size) }
    {
        WHOLE <= SIZE - self.len
    }

    /// Gathers a short text. Its whole array is copied, since the size of that is known at compile
    /// time; what is behind the text in it isn't gathered.
    #[inline(always)]
    pub(crate) fn gather_short(&mut self, text: &ShortText)
        requires { length self.old + WHOLE ≤ buffer_size }
        ensures { self.new ≡ self.old ++ inline_bytes text.now }
    {
        let end = self.len + WHOLE;
        // Copied first: otherwise the compiler has to assume that the text may lie in the cells.
        let bytes = *text.whole();
        self.cells[self.len..end].copy_from_slice(&bytes);
        self.len += text.width();
    }

    /// Removes the first n bytes.
    pub(crate) fn drop_front(&mut self, n: usize)
        requires { n ≤ length self.old }
        ensures { self.new ≡ drop n self.old }
    {
        self.cells.copy_within(n..self.len, 0);
        self.len -= n;
    }

    /// Removes all bytes.
    pub(crate) fn clear(&mut self)
        ensures { self.new ≡ [] }
    {
        self.len = 0;
    }
}
