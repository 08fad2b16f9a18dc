//! Putting numbers and texts into an encoder.
ghost use Rattle.std.specs.Prelude.{◌++◌, length};
ghost use Rattle.std.specs.Int.{w16, w32, w64, to_be_bytes};
ghost use Rattle.mesh_checkpoint.specs.Formats.{truth};

use crate::encoder::Encoder;

/// Puts a truth value, in one byte.
pub(crate) fn put_truth<P: Encoder>(encoder: &mut P, holds: bool)
    ensures { P.wrote encoder.old (truth.put holds) encoder.new }
{
    encoder.put(&[u8::from(holds)]);
}

/// Puts the lowest two bytes of a number, the higher first.
pub(crate) fn put16<P: Encoder>(encoder: &mut P, n: u64)
    ensures { P.wrote encoder.old (to_be_bytes w16 n) encoder.new }
{
    encoder.put(&n.to_be_bytes()[6..]);
}

/// Puts the lowest four bytes of a number, the highest first.
pub(crate) fn put32<P: Encoder>(encoder: &mut P, n: u64)
    ensures { P.wrote encoder.old (to_be_bytes w32 n) encoder.new }
{
    encoder.put(&n.to_be_bytes()[4..]);
}

/// Puts a number, in eight bytes, the highest first.
pub(crate) fn put64<P: Encoder>(encoder: &mut P, n: u64)
    ensures { P.wrote encoder.old (to_be_bytes w64 n) encoder.new }
{
    encoder.put(&n.to_be_bytes());
}

/// Puts bytes, after their length.
pub(crate) fn put_text<P: Encoder>(encoder: &mut P, text: &[u8])
    ensures { P.wrote encoder.old (to_be_bytes w16 (length text.now) ++ text.now) encoder.new }
{
    put16(encoder, text.len() as u64);
    encoder.put(text);
}
