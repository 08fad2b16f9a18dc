//! Why a run wasn't completed.
use mesh_io::PutFault;
use thiserror::Error;

/// Why a run wasn't completed.
#[derive(Clone, Copy, Debug, PartialEq, Eq, Error)]
pub enum Fault {
    /// The source failed.
    #[error("a read failed")]
    ReadFault,
    /// The sink failed.
    #[error("a write failed")]
    WriteFault,
    /// Memory ran out.
    #[error("no memory")]
    NoMemory,
}

impl From<PutFault> for Fault {
    ghost use Rattle.std.specs.Prelude.{◌≡◌};
    ghost use Rattle.mesh_shell.specs.declared.fault.Fault.TheVariants as faults;

    ghost from_gives = { λ put fault. fault ≡ faults.WriteFault };

    fn from(_: PutFault) -> Fault {
        Fault::WriteFault
    }
}
