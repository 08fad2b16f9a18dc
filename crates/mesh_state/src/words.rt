//! The words of a command line.
ghost use Rattle.std.specs.Prelude.{◌≡◌, map};
ghost use Rattle.mesh_state.specs.Words.{asked_by, asked_of};

/// What the words ask for.
#[derive(Clone, Copy, PartialEq, Eq)]
pub enum Asked {
    /// To run the schedule that is read, and to write the checkpoint of its last state.
    Save,
    /// To go on from the checkpoint in the input with the schedule that follows it.
    Go,
}

fn asked_by(word: &str) -> Option<Asked>
    ensures { result ≡ asked_by word.now }
{
    if word == "save" {
        Some(Asked::Save)
    } else if word == "go" {
        Some(Asked::Go)
    } else {
        None
    }
}

/// What the words ask for, if they are the one word `save` or the one word `go`.
#[tactic(auto, unfolding(crate::specs::Words::asked_of))]
pub fn asked_of(words: &[&str]) -> Option<Asked>
    ensures { result ≡ asked_of (map (λ w. w.now) words.now) }
{
    match words {
        [word] => asked_by(word),
        _ => None,
    }
}
