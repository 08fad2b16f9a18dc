//! What a capture answers.
ghost use Rattle.std.specs.Prelude.{◌≡◌};

use mesh_shell::{Fault, WordsError};

/// What a capture comes to if nothing fails.
#[derive(Clone, Copy)]
pub enum CaptureVerdict {
    /// Every line was read, and the packets were written.
    Done,
    /// This line, counted from 1, is refused. The packets of the lines above it were written.
    BadLine { line: u64 },
}

/// What a capture came to.
#[derive(Clone, Copy, PartialEq, Eq)]
pub enum CaptureStatus {
    /// Every line was read, and the packets were written.
    Done,
    /// The command line has a word.
    Usage,
    /// This line, counted from 1, is refused. The packets of the lines above it were written.
    BadLine { line: u64 },
    /// The source failed.
    ReadFault,
    /// A sink failed.
    WriteFault,
    /// Memory ran out, or a packet is shared so often that one more copy can't be counted.
    NoMemory,
}

impl CaptureStatus {
    ghost use Rattle.mesh_capture.specs.Codes.{code_of, status_of};

    /// The status of an answer.
    pub fn of(answer: Result<CaptureVerdict, Fault>) -> CaptureStatus
        ensures { result ≡ status_of answer }
    {
        match answer {
            Ok(CaptureVerdict::Done) => CaptureStatus::Done,
            Ok(CaptureVerdict::BadLine { line }) => CaptureStatus::BadLine { line },
            Err(Fault::ReadFault) => CaptureStatus::ReadFault,
            Err(Fault::WriteFault) => CaptureStatus::WriteFault,
            Err(Fault::NoMemory) => CaptureStatus::NoMemory,
        }
    }

    /// The status with which the process ends.
    pub fn code(&self) -> u8
        ensures { result ≡ code_of self.now }
    {
        match self {
            CaptureStatus::Done => 0,
            CaptureStatus::Usage => 2,
            CaptureStatus::BadLine { .. } => 3,
            CaptureStatus::ReadFault => 5,
            CaptureStatus::WriteFault => 6,
            CaptureStatus::NoMemory => 7,
        }
    }
}

impl From<WordsError> for CaptureStatus {
    ghost use Rattle.std.specs.Prelude.{◌≡◌};
    ghost use Rattle.mesh_capture.specs.Codes.{without_words};

    ghost from_gives = { λ e status. status ≡ without_words e };

    fn from(e: WordsError) -> CaptureStatus {
        match e {
            WordsError::NotText => CaptureStatus::Usage,
            WordsError::NoMemory => CaptureStatus::NoMemory,
        }
    }
}
