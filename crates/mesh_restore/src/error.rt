//! Why a part wasn't read.
ghost use Rattle.std.specs.Prelude.{◌≡◌};
ghost use Rattle.mesh_restore.specs.declared.error.ReadError.TheVariants.{NoMemory as Short};

use mesh_base::NoMemory;
use std::alloc::{AllocError, AllocFailed};

/// Why a part wasn't read.
#[derive(Clone, Copy, Debug, PartialEq, Eq)]
pub enum ReadError {
    /// The bytes don't begin with such a part.
    Spelling,
    /// Memory was asked for, and there wasn't enough.
    NoMemory,
}

impl From<NoMemory> for ReadError {
    ghost from_gives = { λ _ e. e ≡ Short };

    fn from(_: NoMemory) -> ReadError {
        ReadError::NoMemory
    }
}
