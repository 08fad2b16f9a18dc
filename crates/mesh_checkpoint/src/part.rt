//! Lists of parts, which are passed over without being kept.
ghost use Rattle.std.specs.Prelude.{ℕ, option_map};
ghost use Rattle.std.specs.List.{sum_by};
ghost use Rattle.mesh_checkpoint.specs.Formats.{Format, times, rising};
ghost use Rattle.mesh_checkpoint.specs.Reading.{Passes, PassesBy};

use crate::reading::rise;

/// A kind of part, many of which may follow one another.
pub(crate) trait Part {
    /// What such a part is.
    ghost Value: { Type 0 };

    /// How it is encoded.
    ghost format: { Self → Format Value };

    /// How many data are in it.
    ghost amount: { Value → ℕ };

    /// Passes over the part at the start of the bytes: how many data are in it, and the bytes after
    /// it. None if the bytes don't begin with such a part.
    fn pass<'b>(&self, bytes: &'b [u8]) -> Option<(u64, &'b [u8])>
        ensures { Passes {A = Value} (format self.now) amount bytes.now
            (option_map (λ x. (x.0, x.1.now)) result) };
}

/// A kind of part with a key. Such parts follow one another by rising key.
pub(crate) trait KeyedPart {
    /// What such a part is.
    ghost Value: { Type 0 };

    /// How it is encoded.
    ghost format: { Self → Format Value };

    /// Its key.
    ghost key: { Value → ℕ };

    /// How many data are in it.
    ghost amount: { Value → ℕ };

    /// Passes over the part at the start of the bytes: its key, how many data are in it, and the
    /// bytes after it. None if the bytes don't begin with such a part.
    fn pass<'b>(&self, bytes: &'b [u8]) -> Option<(u64, u64, &'b [u8])>
        ensures { PassesBy {A = Value} (format self.now) key amount bytes.now
            (option_map (λ x. (x.0, x.1, x.2.now)) result) };
}

/// Passes over `count` parts: how many data are in them, and the bytes after them.
pub(crate) fn pass_all<'b, P: Part>(
    part: &P,
    count: u32,
    bytes: &'b [u8],
) -> Option<(u64, &'b [u8])>
    ensures { Passes (times (P.format part.now) count) (sum_by P.amount) bytes.now
        (option_map (λ x. (x.0, x.1.now)) result) }
{
    let mut rest = bytes;
    let mut sum = 0;
    for _ in 0..count {
        let (amount, behind) = part.pass(rest)?;
        sum += amount;
        rest = behind;
    }
    Some((sum, rest))
}

/// Passes over `count` parts whose keys rise: how many data are in them, and the bytes after them.
pub(crate) fn pass_rising<'b, P: KeyedPart>(
    part: &P,
    count: u32,
    bytes: &'b [u8],
) -> Option<(u64, &'b [u8])>
    ensures { Passes (rising P.key (P.format part.now) count) (sum_by P.amount) bytes.now
        (option_map (λ x. (x.0, x.1.now)) result) }
{
    let mut rest = bytes;
    let mut sum = 0;
    let mut low = 0;
    for _ in 0..count {
        let (key, amount, behind) = part.pass(rest)?;
        low = rise(low, key)?;
        sum += amount;
        rest = behind;
    }
    Some((sum, rest))
}
