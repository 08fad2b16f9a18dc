//! The variants of the protocol by number.
ghost use Rattle.std.specs.Prelude.{◌≡◌};
ghost use Rattle.mesh_page.specs.Variants.{variant_numbered};

use mesh_base::Variant;

/// The variant of the protocol that has this number: 0 the protocol as AWN has it, 1 `number`,
/// 2 `reply`, 3 `error`. None exactly where the number is none of them.
pub(crate) fn variant_numbered(number: u32) -> Option<Variant>
    ensures { result ≡ variant_numbered number }
{
    match number {
        0 => Some(Variant::Base),
        1 => Some(Variant::Number),
        2 => Some(Variant::Reply),
        3 => Some(Variant::Error),
        _ => None,
    }
}
