//! What a call answers.
ghost use Rattle.std.specs.Prelude.{◌≡◌};
ghost use Rattle.mesh_state.specs.Codes.{part_reason, error_reason};

use mesh_load::StateError;
use mesh_run::Status;
use mesh_shell::WordsError;
use mesh_world::Part;

/// What a call came to.
#[derive(Clone, Copy, Debug, PartialEq, Eq)]
pub enum StateStatus {
    /// What a run came to. Done with `save` says that the checkpoint was written.
    Run(Status),
    /// The checkpoint part of the input is no checkpoint from which a run can go on. Lack of memory
    /// is never the reason.
    BadState(StateError),
    /// The schedule was done, and its last state has too long a body for a checkpoint.
    TooBig,
}

// Why a part of a checkpoint's world is refused.
fn part_reason(part: Part) -> &'static [u8]
    ensures { result.now ≡ part_reason part }
{
    match part {
        Part::Node { .. } => b"a node's state is out of order\n",
        Part::Item => b"a packet is not as a node writes it\n",
        Part::Request => b"a request tells more than its sender knows\n",
        Part::Reply => b"a reply tells more than its sender knows\n",
        Part::Edge { .. } => b"a route is not backed by its next hop\n",
    }
}

// Why the checkpoint part of the input is refused.
fn error_reason(why: StateError) -> &'static [u8]
    ensures { result.now ≡ error_reason why }
{
    match why {
        StateError::NotState => b"no checkpoint\n",
        StateError::Length => b"a checkpoint of another length than it states\n",
        StateError::Spelling => b"a checkpoint that doesn't follow its table\n",
        StateError::Sums => b"a checkpoint whose data aren't accounted for\n",
        StateError::Unsound(part) => part_reason(part),
        StateError::NoMemory => b"",
    }
}

impl StateStatus {
    ghost use Rattle.mesh_state.specs.Codes.{code_of, reason_of};

    /// The status with which the process ends.
    pub fn code(&self) -> u8
        ensures { result ≡ code_of self.now }
    {
        match self {
            StateStatus::Run(status) => status.code(),
            StateStatus::BadState(_) => 9,
            StateStatus::TooBig => 10,
        }
    }

    /// A line for standard error, if no text says the reason: the checkpoint part was refused, or
    /// the checkpoint would be too long. Otherwise no bytes.
    pub fn reason(&self) -> &'static [u8]
        ensures { result.now ≡ reason_of self.now }
    {
        match self {
            StateStatus::Run(_) => b"",
            StateStatus::BadState(why) => error_reason(*why),
            StateStatus::TooBig => b"the checkpoint would be too long\n",
        }
    }
}

impl From<WordsError> for StateStatus {
    ghost use Rattle.mesh_run.specs.Codes.{status_without_words};
    ghost use Rattle.mesh_state.specs.declared.status.StateStatus.TheVariants.{Run};

    ghost from_gives = { λ error status. status ≡ Run (status_without_words error) };

    fn from(error: WordsError) -> StateStatus {
        StateStatus::Run(Status::from(error))
    }
}
