//! What is written of a run.
ghost use Rattle.std.specs.Prelude.{◌≡◌};

/// How much of its text a run writes.
#[derive(Clone, Copy, PartialEq, Eq)]
pub enum Say {
    /// All of it.
    All,
    /// Its last line alone.
    Last,
    /// Its last line if a line is refused or a counter is full, and otherwise nothing.
    Faults,
}

impl Say {
    ghost use Rattle.mesh_run.specs.Outputs.{say_by, says_lines};

    /// The last line alone if `quiet`, and otherwise the whole text.
    pub fn by(quiet: bool) -> Say
        ensures { result ≡ say_by quiet }
    {
        if quiet { Say::Last } else { Say::All }
    }

    /// Whether the text of the lines is written.
    pub fn says_lines(&self) -> bool
        ensures { result ≡ says_lines self.now }
    {
        match self {
            Say::All => true,
            Say::Last => false,
            Say::Faults => false,
        }
    }
}
