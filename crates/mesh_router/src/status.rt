//! What the run of a router's script came to.
ghost use Rattle.std.specs.Prelude.{◌≡◌};
ghost use Rattle.mesh_router.specs.Codes.{code_of};

use mesh_shell::WordsError;

/// What the run of a script came to.
#[derive(Clone, Copy, Debug, PartialEq, Eq)]
pub enum NodeStatus {
    /// The script was read to its end.
    Done,
    /// The command line isn't one word that names a port.
    Usage,
    /// This line, counted from 1, is refused.
    BadLine { line: u64 },
    /// A counter is full at this line, counted from 1.
    Full { line: u64 },
    /// The source failed.
    ReadFault,
    /// The sink failed.
    WriteFault,
    /// Memory ran out.
    NoMemory,
    /// The link failed.
    LinkFault,
}

impl NodeStatus {
    /// The status with which the process ends.
    pub fn code(&self) -> u8
        ensures { result ≡ code_of self.now }
    {
        match self {
            NodeStatus::Done => 0,
            NodeStatus::Usage => 2,
            NodeStatus::BadLine { .. } => 3,
            NodeStatus::Full { .. } => 4,
            NodeStatus::ReadFault => 5,
            NodeStatus::WriteFault => 6,
            NodeStatus::NoMemory => 7,
            NodeStatus::LinkFault => 8,
        }
    }
}

impl From<WordsError> for NodeStatus {
    ghost use Rattle.mesh_router.specs.Codes.{without_words};

    ghost from_gives = { λ e status. status ≡ without_words e };

    fn from(e: WordsError) -> NodeStatus {
        match e {
            WordsError::NotText => NodeStatus::Usage,
            WordsError::NoMemory => NodeStatus::NoMemory,
        }
    }
}
