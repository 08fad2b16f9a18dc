//! The words that a seed gives.
ghost use Rattle.std.specs.Prelude.{◌≡◌};
ghost use Rattle.mesh_make.specs.Words.{of_seed, word, after};

use rand_core::SeedableRng;
use rand_core::utils::NextWord;
use rand_pcg::Lcg64Xsh32;

/// The generator of a seed.
#[tactic(auto, unfolding(crate::specs::Words::of_seed))]
pub fn start(seed: u64) -> Lcg64Xsh32
    ensures { result ≡ of_seed seed }
{
    Lcg64Xsh32::seed_from_u64(seed)
}

/// The next word.
#[tactic(auto, unfolding(crate::specs::Words::word, crate::specs::Words::after))]
pub fn next(rng: &mut Lcg64Xsh32) -> u32
    ensures word { result ≡ word rng.old }
    ensures after { rng.new ≡ after rng.old }
{
    rng.next_word()
}
