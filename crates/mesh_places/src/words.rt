//! The words of a command line.
ghost use Rattle.std.specs.Prelude.{◌≡◌, map};
ghost use Rattle.mesh_places.specs.Words.{reach_in, reach_of};

use mesh_base::number_up_to;
use mesh_grid::GREATEST_PLACE;

// The reach that a word denotes: a number from 1 to 1000000 in decimal digits without a leading
// zero.
fn reach_in(word: &str) -> Option<u32>
    ensures { result ≡ reach_in word.now }
{
    let n = number_up_to(word.as_bytes(), GREATEST_PLACE)?;
    if n == 0 { None } else { Some(n as u32) }
}

/// The reach that the words ask for. None exactly where they aren't one word that denotes a reach.
pub fn reach_of(words: &[&str]) -> Option<u32>
    ensures { result ≡ reach_of (map (λ w. w.now) words.now) }
{
    if words.len() == 1 {
        reach_in(words[0])
    } else {
        None
    }
}
