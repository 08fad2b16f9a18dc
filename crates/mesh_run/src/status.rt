//! What a run answers.
ghost use Rattle.std.specs.Prelude.{◌≡◌};

use mesh_shell::{Fault, WordsError};
use mesh_text::Verdict;

/// What a run came to.
#[derive(Clone, Copy, Debug, PartialEq, Eq)]
pub enum Status {
    /// The input was read to its end, and every line was allowed and done.
    Done,
    /// The words of the command line are in none of the program's forms.
    Usage,
    /// This line, counted from 1, isn't allowed.
    BadLine { line: u64 },
    /// An event of this line, counted from 1, would raise a counter past its field's greatest
    /// value.
    Full { line: u64 },
    /// The source failed.
    ReadFault,
    /// The sink failed.
    WriteFault,
    /// Memory ran out.
    NoMemory,
}

impl Status {
    ghost use Rattle.mesh_run.specs.Codes.{status_of, code_of};

    /// What a run answers, by what its script came to.
    pub fn of(answer: Result<Verdict, Fault>) -> Status
        ensures { result ≡ status_of answer }
    {
        match answer {
            Ok(Verdict::Finished) => Status::Done,
            Ok(Verdict::RefusedAt(line)) => Status::BadLine { line },
            Ok(Verdict::FullAt(line)) => Status::Full { line },
            Err(Fault::ReadFault) => Status::ReadFault,
            Err(Fault::WriteFault) => Status::WriteFault,
            Err(Fault::NoMemory) => Status::NoMemory,
        }
    }

    /// The status with which the process ends.
    pub fn code(&self) -> u8
        ensures { result ≡ code_of self.now }
    {
        match self {
            Status::Done => 0,
            Status::Usage => 2,
            Status::BadLine { .. } => 3,
            Status::Full { .. } => 4,
            Status::ReadFault => 5,
            Status::WriteFault => 6,
            Status::NoMemory => 7,
        }
    }
}

impl From<WordsError> for Status {
    ghost use Rattle.mesh_run.specs.Codes.{status_without_words};

    ghost from_gives = { λ error status. status ≡ status_without_words error };

    fn from(error: WordsError) -> Status {
        match error {
            WordsError::NotText => Status::Usage,
            WordsError::NoMemory => Status::NoMemory,
        }
    }
}
