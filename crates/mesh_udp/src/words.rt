//! The words of a command line.
ghost use Rattle.std.specs.Prelude.{◌≡◌, map};
ghost use Rattle.mesh_udp.specs.Words.{port_in, port_of};

use mesh_base::number_up_to;
use mesh_script::GREATEST_PORT;

// The port that a word denotes: a number from 1 to 65535 in decimal digits without a leading zero.
#[tactic(auto, unfolding(crate::specs::Words::port_in))]
fn port_in(word: &str) -> Option<u16>
    ensures { result ≡ port_in word.now }
{
    let n = number_up_to(word.as_bytes(), GREATEST_PORT)?;
    if n == 0 { None } else { Some(n as u16) }
}

/// The port that the words ask for. None exactly where the words aren't one word that denotes a
/// port.
pub fn port_of(words: &[&str]) -> Option<u16>
    ensures { result ≡ port_of (map (λ w. w.now) words.now) }
{
    if words.len() == 1 {
        port_in(words[0])
    } else {
        None
    }
}
