//! What writes a body: the same functions measure it first, and then write it to a sink.
ghost use Rattle.std.specs.Prelude.{◌≡◌, ℕ, List, [], ◌++◌, false};
ghost use Rattle.mesh_save.specs.Encoders.{HasWritten, HasMeasured};
ghost use Rattle.mesh_save.specs.EncoderLaws.{measured_nothing, measured_both, written_nothing, written_both};

use arrayvec::ArrayVec;
use mesh_io::{Sink, put_all};

/// The most bytes that are gathered before they are written to a sink.
const GATHERED: usize = 2048;

/// What takes the bytes of a body, one piece after another.
pub(crate) trait Encoder {
    /// These bytes were taken between a state and a later one.
    ghost wrote: { Self → List ℕ → Self → Type 0 };

    /// Takes the piece.
    fn put(&mut self, piece: &[u8])
        ensures { wrote self.old piece.now self.new };

    /// If nothing has changed, nothing was taken.
    ghost nothing: { (p : Self) → wrote p [] p };

    /// What was taken in two parts was taken as a whole.
    ghost joins: { (p q r : Self) (a b : List ℕ)
        → wrote p a q → wrote q b r → wrote p (a ++ b) r };
}

/// Counts the bytes that it takes, up to the greatest number of 64 bits.
#[derive(Clone, Copy)]
pub(crate) struct LengthCounter {
    pub length: u64,
}

impl Encoder for LengthCounter {
    ghost wrote = { λ p text q. HasMeasured p.length text q.length };

    fn put(&mut self, piece: &[u8]) {
        self.length = self.length.saturating_add(piece.len() as u64);
    }

    ghost nothing = { λ p. measured_nothing p.length };

    ghost joins = { λ p q r a b one two. measured_both p.length q.length r.length a b one two };
}

/// Writes the bytes that it takes to a sink, many at a time, up to the sink's first fault.
#[derive(Drop)]
pub(crate) struct BufferedWriter<S> {
    pub out: S,
    pub gathered: ArrayVec<u8, GATHERED>,
    pub failed: bool,
}

impl<S: Sink> BufferedWriter<S> {
    /// Writes what is gathered.
    pub(crate) fn flush(&mut self)
        requires { self.old.failed ≡ false }
        ensures written { HasWritten false self.new.failed
            (S.held self.old.out) (S.held self.new.out)
            (S.faults self.old.out) (S.faults self.new.out)
            self.old.gathered.items self.new.gathered.items [] }
        ensures all { self.new.gathered.items ≡ [] }
    {
        self.failed = put_all(&mut self.out, self.gathered.as_slice()).is_err();
        self.gathered.clear();
    }

    // Takes the piece, while nothing is gathered.
    fn put_first(&mut self, piece: &[u8])
        requires sound { self.old.failed ≡ false }
        requires nothing { self.old.gathered.items ≡ [] }
        ensures { HasWritten false self.new.failed
            (S.held self.old.out) (S.held self.new.out)
            (S.faults self.old.out) (S.faults self.new.out)
            self.old.gathered.items self.new.gathered.items piece.now }
    {
        if self.gathered.try_extend_from_slice(piece).is_err() {
            self.failed = put_all(&mut self.out, piece).is_err();
        }
    }

    // Takes the piece, for which there is no room after what is gathered.
    fn put_behind(&mut self, piece: &[u8])
        requires { self.old.failed ≡ false }
        ensures { HasWritten false self.new.failed
            (S.held self.old.out) (S.held self.new.out)
            (S.faults self.old.out) (S.faults self.new.out)
            self.old.gathered.items self.new.gathered.items piece.now }
    {
        self.flush();
        if !self.failed {
            self.put_first(piece);
        }
    }
}

impl<S: Sink> Encoder for BufferedWriter<S> {
    ghost wrote = { λ p text q. HasWritten p.failed q.failed
        (S.held p.out) (S.held q.out) (S.faults p.out) (S.faults q.out)
        p.gathered.items q.gathered.items text };

    fn put(&mut self, piece: &[u8]) {
        if self.failed {
            return;
        }
        if self.gathered.try_extend_from_slice(piece).is_ok() {
            return;
        }
        self.put_behind(piece);
    }

    ghost nothing = { λ p. written_nothing p.failed (S.held p.out) (S.faults p.out)
        p.gathered.items };

    ghost joins = { λ p q r a b one two. written_both p.failed q.failed r.failed
        (S.held p.out) (S.held q.out) (S.held r.out)
        (S.faults p.out) (S.faults q.out) (S.faults r.out)
        p.gathered.items q.gathered.items r.gathered.items a b one two };
}
