//! What a check answers.
ghost use Rattle.std.specs.Prelude.{◌≡◌};

use mesh_shell::WordsError;

/// What a check came to.
#[derive(Clone, Copy, PartialEq, Eq)]
pub enum CheckStatus {
    /// Every line was read, and the tables are sound: they have no cycle.
    Yes,
    /// Every line was read, and some next hop, not the destination, has a valid entry that isn't
    /// better.
    No,
    /// The command line has a word.
    Usage,
    /// This line, counted from 1, is refused.
    BadLine { line: u64 },
    /// The source failed.
    ReadFault,
    /// The sink failed.
    WriteFault,
    /// Memory ran out.
    NoMemory,
}

impl CheckStatus {
    ghost use Rattle.mesh_check.specs.Codes.{code_of};

    /// The status with which the process ends.
    pub fn code(&self) -> u8
        ensures { result ≡ code_of self.now }
    {
        match self {
            CheckStatus::Yes => 0,
            CheckStatus::No => 9,
            CheckStatus::Usage => 2,
            CheckStatus::BadLine { .. } => 3,
            CheckStatus::ReadFault => 5,
            CheckStatus::WriteFault => 6,
            CheckStatus::NoMemory => 7,
        }
    }
}

impl From<WordsError> for CheckStatus {
    ghost use Rattle.std.specs.Prelude.{◌≡◌};
    ghost use Rattle.mesh_check.specs.Codes.{without_words};

    ghost from_gives = { λ e status. status ≡ without_words e };

    fn from(e: WordsError) -> CheckStatus {
        match e {
            WordsError::NotText => CheckStatus::Usage,
            WordsError::NoMemory => CheckStatus::NoMemory,
        }
    }
}
