//! A buffer before a sink.
ghost use Rattle.std.specs.Prelude.{◌≡◌, ◌≤◌, ◌<◌, ◌+◌, ◌-◌, ℕ, List, length, [], ◌++◌, take, min, Ok, IsOk, IfOk, OnOk, OnErr};
ghost use Rattle.std.specs.Io.KnownBytes.{Keeps, WriteAppends};
ghost use Rattle.mesh_io.specs.Cause.{HasCause};
ghost use Rattle.mesh_base.specs.InlineBytes.{inline_bytes};
ghost use Rattle.mesh_io.specs.Puts.{AppendsPrefix, Puts};
ghost use Rattle.mesh_io.specs.Buffering.{inner_of, gathered_in, held_by, HandsOn};
ghost use Rattle.mesh_io.specs.BufferSize.{buffer_size};

use crate::put::{PutFault, put_prefix};
use crate::reserved_buffer::{ReservedBuffer, WHOLE};
use crate::sink::Sink;
use crate::source::Failed;
use crate::through::{Loan, Through};
use mesh_base::ShortText;

/// A sink that gathers the pieces put into it, and hands them on to another sink, many at a time.
/// All its memory is taken before it is made. What isn't flushed before it is dropped is lost.
#[derive(Drop)]
pub struct Buffered<S> {
    inner: S,
    gathered: ReservedBuffer,
}

impl<S: Sink> Buffered<S> {
    /// An empty buffer before this sink, in this memory.
    pub fn new(inner: S, room: ReservedBuffer) -> Buffered<S>
        ensures inner { inner_of result ≡ inner }
        ensures gathered { gathered_in result ≡ [] }
    {
        let mut gathered = room;
        gathered.clear();
        Buffered { inner, gathered }
    }

    /// Hands on all that is gathered. If the inner sink fails, what it has taken is removed from
    /// the buffer, and the rest stays gathered.
    #[inline(never)]
    pub fn flush(&mut self) -> Result<(), PutFault>
        ensures all { OnOk result (gathered_in self.new ≡ []) }
        ensures handed { HandsOn (S.held (inner_of self.old)) (S.held (inner_of self.new))
            (gathered_in self.old) (gathered_in self.new) }
        ensures held { Keeps (held_by S.held self.old) (held_by S.held self.new) }
        ensures cause { HasCause (S.faults (inner_of self.old))
            (S.faults (inner_of self.new)) result }
        ensures nothing { gathered_in self.old ≡ []
            → IsOk result × (inner_of self.new ≡ inner_of self.old) }
    {
        let gathered = self.gathered.bytes();
        let count = gathered.len();
        let handed = put_prefix(&mut self.inner, gathered);
        if handed < count {
            self.gathered.drop_front(handed);
            return Err(PutFault);
        }
        self.gathered.clear();
        Ok(())
    }

    // Hands on what is gathered if there is no room for a short text.
    #[inline(always)]
    fn make_room(&mut self) -> Result<(), PutFault>
        ensures room { OnOk result (length (gathered_in self.new) + WHOLE ≤ buffer_size) }
        ensures held { Keeps (held_by S.held self.old) (held_by S.held self.new) }
        ensures cause { HasCause (S.faults (inner_of self.old))
            (S.faults (inner_of self.new)) result }
    {
        if self.gathered.fits_short() {
            return Ok(());
        }
        self.flush()
    }

    /// The inner sink. What is gathered is lost, so flush first.
    pub fn into_inner(self) -> S
        ensures { result ≡ inner_of self }
    {
        let Buffered { inner, gathered: _ } = self;
        inner
    }
}

impl<S: Sink> Sink for Buffered<S> {
    ghost held = { held_by S.held };

    ghost faults = { λ b. S.faults (inner_of b) };

    #[inline]
    fn put(&mut self, piece: &[u8]) -> Result<usize, Failed>
        requires { 0 < length piece.now }
        ensures some { IfOk result (λ n. (0 < n) × (n ≤ length piece.now)) }
        ensures bytes { WriteAppends (held_by S.held self.old)
            (held_by S.held self.new) result piece.now }
        ensures cause { HasCause (S.faults (inner_of self.old))
            (S.faults (inner_of self.new)) result }
        ensures gathers { length (gathered_in self.old) < buffer_size
            → (inner_of self.new ≡ inner_of self.old)
            × (result ≡ Ok (min (length piece.now) (buffer_size - length (gathered_in self.old))))
            × IfOk result (λ n. gathered_in self.new ≡ gathered_in self.old ++ take n piece.now) }
        ensures full { buffer_size ≤ length (gathered_in self.old) → IfOk result (λ n.
            (n ≡ min (length piece.now) buffer_size) × (gathered_in self.new ≡ take n piece.now)) }
        ensures refused { OnErr result (HandsOn
            (S.held (inner_of self.old)) (S.held (inner_of self.new))
            (gathered_in self.old) (gathered_in self.new)) }
    {
        if self.gathered.is_full() && self.flush().is_err() {
            return Err(Failed);
        }
        Ok(self.gathered.gather(piece))
    }

    #[inline(always)]
    fn put_short(&mut self, text: &ShortText) -> Result<(), PutFault>
        ensures text { Puts (held_by S.held self.old) (held_by S.held self.new)
            (inline_bytes text.now) result }
        ensures cause { HasCause (S.faults (inner_of self.old))
            (S.faults (inner_of self.new)) result }
    {
        self.make_room()?;
        self.gathered.gather_short(text);
        Ok(())
    }
}

impl<'s, O: Sink, L: Loan> Buffered<Through<'s, O, L>> {
    /// An empty buffer before the sink behind a reference, in this memory.
    pub fn lent(to: &'s mut O, room: ReservedBuffer) -> Buffered<Through<'s, O, L>>
        requires name { to.ghost_name ≡ L.name }
        requires start { O.held to.old ≡ L.start }
        ensures sink { (inner_of result).to.now ≡ to.old }
        ensures gathered { gathered_in result ≡ [] }
        ensures held { held_by (λ t. O.held t.to.now) result ≡ O.held to.old }
    {
        Buffered::new(Through::new(to), room)
    }

    /// The reference. What is gathered is lost, so flush first.
    pub fn give_back(self) -> &'s mut O
        ensures name { result.ghost_name ≡ L.name }
        ensures sink { result.now ≡ (inner_of self.entry).to.now }
        ensures whole { gathered_in self.entry ≡ []
            → O.held result.now ≡ held_by (λ t. O.held t.to.now) self.entry }
        ensures prefix { (text : List ℕ)
            → AppendsPrefix L.start (held_by (λ t. O.held t.to.now) self.entry) text
            → AppendsPrefix L.start (O.held result.now) text }
    {
        let Through { to, loan: _ } = self.into_inner();
        to
    }
}
