//! The words of a command line.
ghost use Rattle.std.specs.Prelude.{◌≡◌, map, option_map};
ghost use Rattle.mesh_why.specs.Routes.{of_two, asked_of};

use mesh_base::Addr;

/// Whose route is asked for, and to what destination.
#[derive(Clone, Copy, PartialEq, Eq)]
pub struct Asked {
    pub node: Addr,
    pub dest: Addr,
}

// The addresses that two words denote.
fn of_two(node: &str, dest: &str) -> Option<Asked>
    ensures { option_map (λ asked. (asked.node.0, asked.dest.0)) result ≡ of_two node.now dest.now }
{
    let node = Addr::parse(node.as_bytes())?;
    let dest = Addr::parse(dest.as_bytes())?;
    Some(Asked { node, dest })
}

/// What the words ask for, if they are two addresses: the node's and the destination's.
pub fn asked_of(words: &[&str]) -> Option<Asked>
    ensures { option_map (λ asked. (asked.node.0, asked.dest.0)) result
        ≡ asked_of (map (λ w. w.now) words.now) }
{
    match words {
        [node, dest] => of_two(node, dest),
        _ => None,
    }
}
