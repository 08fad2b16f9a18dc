//! A hasher of numbers.
ghost use Rattle.std.specs.Prelude.{◌≡◌, ◌/◌, ◌^◌};
ghost use Rattle.mesh_radio.specs.Hashes.{written};

use std::hash::Hasher;

// 2^64 divided by the golden ratio: numbers that rise by even steps are spread evenly (Fibonacci
// hashing).
const GOLDEN: u64 = 0x9e37_79b9_7f4a_7c15;

/// The number that was written last, multiplied by `GOLDEN`. The high half is the hash. This takes
/// one multiplication, while a map's default hasher takes a call.
#[derive(Clone, Copy)]
pub struct NumberHasher {
    product: u64,
}

impl Default for NumberHasher {
    ghost is_default = { λ h. h.product ≡ 0 };

    fn default() -> NumberHasher {
        NumberHasher { product: 0 }
    }
}

impl Hasher for NumberHasher {
    ghost write = { written };

    ghost finish = { λ h. h.product / 2 ^ 32 };

    #[inline(always)]
    fn finish(&self) -> u64 {
        self.product >> 32
    }

    #[inline(always)]
    fn write(&mut self, bytes: &[u8]) {
        if let Some(number) = bytes.as_array::<8>() {
            self.product = u64::from_le_bytes(*number).wrapping_mul(GOLDEN);
        }
    }
}
