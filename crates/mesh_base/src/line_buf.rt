//! A line that is put together before it is written.
ghost use Rattle.std.specs.Prelude.{◌≡◌, ◌≤◌, ◌+◌, ◌++◌, length, take};

use crate::limits::LINE_CAPACITY;
use arrayvec::ArrayVec;

/// A line to be written, of at most `LINE_CAPACITY` bytes.
pub type LineBuf = ArrayVec<u8, LINE_CAPACITY>;

/// Appends a text.
#[inline]
pub fn push_text(out: &mut LineBuf, text: &[u8])
    requires { length out.old.items + length text.now ≤ LINE_CAPACITY }
    ensures text { out.new.items ≡ out.old.items ++ text.now }
    ensures length { length out.new.items ≡ length out.old.items + length text.now }
{
    if out.try_extend_from_slice(text).is_err() {
        unreachable!();
    }
}

/// Appends an array. Its length is known at compile time, so the copy needs no call.
#[inline]
pub fn push_array<const SIZE: usize>(out: &mut LineBuf, bytes: &[u8; SIZE])
    requires { length out.old.items + SIZE ≤ LINE_CAPACITY }
    ensures text { out.new.items ≡ out.old.items ++ bytes.now }
    ensures length { length out.new.items ≡ length out.old.items + SIZE }
{
    // Copied first: otherwise the compiler has to assume that these bytes may lie in the line.
    let bytes = *bytes;
    push_text(out, &bytes);
}

// Appends the first `PIECE` bytes of a chunk, a number that is known at compile time.
#[inline(always)]
fn push_piece<const PIECE: usize>(out: &mut LineBuf, chunk: &[u8])
    requires within { PIECE ≤ length chunk.now }
    requires room { length out.old.items + PIECE ≤ LINE_CAPACITY }
    ensures text { out.new.items ≡ out.old.items ++ take PIECE chunk.now }
    ensures length { length out.new.items ≡ length out.old.items + PIECE }
{
    let Some(piece) = chunk.first_chunk::<PIECE>() else {
        unreachable!();
    };
    push_array(out, piece);
}

/// Appends the first `width` bytes of a short chunk. Each width has a copy of its own, whose size
/// is known at compile time.
#[inline(always)]
pub(crate) fn push_one_to_four(out: &mut LineBuf, chunk: &[u8; 4], width: usize)
    requires some { 1 ≤ width }
    requires within { width ≤ 4 }
    requires room { length out.old.items + width ≤ LINE_CAPACITY }
    ensures text { out.new.items ≡ out.old.items ++ take width chunk.now }
    ensures length { length out.new.items ≡ length out.old.items + width }
{
    match width {
        1 => push_piece::<1>(out, chunk),
        2 => push_piece::<2>(out, chunk),
        3 => push_piece::<3>(out, chunk),
        _ => push_piece::<4>(out, chunk),
    }
}

/// Appends the first `width` bytes of a chunk, as `push_one_to_four` does.
#[inline(always)]
pub(crate) fn push_six_to_twelve(out: &mut LineBuf, chunk: &[u8; 16], width: usize)
    requires some { 6 ≤ width }
    requires within { width ≤ 12 }
    requires room { length out.old.items + width ≤ LINE_CAPACITY }
    ensures text { out.new.items ≡ out.old.items ++ take width chunk.now }
    ensures length { length out.new.items ≡ length out.old.items + width }
{
    match width {
        6 => push_piece::<6>(out, chunk),
        7 => push_piece::<7>(out, chunk),
        8 => push_piece::<8>(out, chunk),
        9 => push_piece::<9>(out, chunk),
        10 => push_piece::<10>(out, chunk),
        11 => push_piece::<11>(out, chunk),
        _ => push_piece::<12>(out, chunk),
    }
}
