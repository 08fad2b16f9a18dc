//! Why a router stops, and the buffers that a run lends to its lines.
ghost use Rattle.std.specs.Prelude.{◌≡◌};
ghost use Rattle.mesh_router.specs.declared.stop.Stop.TheVariants as stops;

use crate::limits::MOST_RECEIVED;
use mesh_base::{Full, LineBuf, NoMemory, Packet};
use mesh_io::{Failed, PutFault};

/// Why a command wasn't done, or wasn't reported in full.
#[derive(Clone, Copy)]
pub enum Stop {
    /// The command would raise this counter past its field's greatest value.
    Full(Full),
    /// A write failed.
    WriteFault,
    /// The link failed.
    LinkFault,
    /// Memory ran out.
    NoMemory,
}

impl From<PutFault> for Stop {
    ghost from_gives = { λ _ stop. stop ≡ stops.WriteFault };

    fn from(_fault: PutFault) -> Self {
        Stop::WriteFault
    }
}

impl From<Failed> for Stop {
    ghost from_gives = { λ _ stop. stop ≡ stops.LinkFault };

    fn from(_failed: Failed) -> Self {
        Stop::LinkFault
    }
}

impl From<NoMemory> for Stop {
    ghost from_gives = { λ _ stop. stop ≡ stops.NoMemory };

    fn from(_none: NoMemory) -> Self {
        Stop::NoMemory
    }
}

/// Buffers for a line to be written, a packet that is cast, and a datagram that is received: one of
/// each for a whole run, so that none is made for each line.
#[derive(Drop)]
pub struct Scratch {
    pub(crate) line: LineBuf,
    pub(crate) packet: Packet,
    pub(crate) datagram: [u8; MOST_RECEIVED],
}

impl Scratch {
    /// An empty line and packet, and a datagram of zeros.
    pub fn new() -> Scratch {
        Scratch {
            line: LineBuf::new(),
            packet: Packet::new(),
            datagram: [0; MOST_RECEIVED],
        }
    }
}
