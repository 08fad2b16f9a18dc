//! Why no run goes on from bytes.
ghost use Rattle.std.specs.Prelude.{◌≡◌};
ghost use Rattle.mesh_load.specs.Errors.{after_validate, after_reading};
ghost use Rattle.mesh_load.specs.declared.error.StateError.TheVariants.{NoMemory as Short};

use mesh_base::NoMemory;
use mesh_checkpoint::ValidateError;
use mesh_restore::ReadError;
use mesh_world::Part;
use thiserror::Error;

/// Why no run goes on from bytes. The first reason that applies is answered, but memory may run out
/// at any time.
#[derive(Clone, Copy, Debug, PartialEq, Eq, Error)]
pub enum StateError {
    /// The first four bytes aren't there, or aren't those of a checkpoint.
    #[error("no checkpoint")]
    NotState,
    /// The length isn't there, is greater than that of the longest body, or isn't that of the bytes
    /// after it.
    #[error("a wrong length")]
    Length,
    /// The body doesn't follow the table to its end.
    #[error("a body that doesn't follow the table")]
    Spelling,
    /// The data that were given or doubled aren't as many as those that were delivered, were
    /// dropped or are still there.
    #[error("sums that aren't balanced")]
    Sums,
    /// This part isn't as in a run.
    #[error("{0}")]
    Unsound(Part),
    /// Memory was asked for, and there wasn't enough.
    #[error("no memory")]
    NoMemory,
}

impl From<ValidateError> for StateError {
    ghost from_gives = { λ validate e. e ≡ after_validate validate };

    fn from(validate: ValidateError) -> StateError {
        match validate {
            ValidateError::NotState => StateError::NotState,
            ValidateError::Length => StateError::Length,
            ValidateError::Spelling => StateError::Spelling,
            ValidateError::Sums => StateError::Sums,
        }
    }
}

impl From<ReadError> for StateError {
    ghost from_gives = { λ reading e. e ≡ after_reading reading };

    fn from(reading: ReadError) -> StateError {
        match reading {
            ReadError::Spelling => StateError::Spelling,
            ReadError::NoMemory => StateError::NoMemory,
        }
    }
}

impl From<NoMemory> for StateError {
    ghost from_gives = { λ _ e. e ≡ Short };

    fn from(_: NoMemory) -> StateError {
        StateError::NoMemory
    }
}
