//! The variants of the protocol, by name.
ghost use Rattle.std.specs.Prelude.{◌≡◌};
ghost use Rattle.mesh_run.specs.Variants.{variant_named};

use mesh_base::Variant;

/// The variant of the protocol that a word names. The names are `base`, `number`, `reply` and
/// `error`; None exactly where the word is none of them.
pub fn variant_named(name: &str) -> Option<Variant>
    ensures { result ≡ variant_named name.now }
{
    if name == "base" {
        Some(Variant::Base)
    } else if name == "number" {
        Some(Variant::Number)
    } else if name == "reply" {
        Some(Variant::Reply)
    } else if name == "error" {
        Some(Variant::Error)
    } else {
        None
    }
}
