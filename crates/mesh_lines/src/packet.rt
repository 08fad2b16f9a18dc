//! The packet of a cast, which its copies share.
ghost use Rattle.std.specs.Prelude.{◌≡◌, IfOk, IfSome};

use mesh_base::{Bytes, NoMemory};
use std::alloc::Global;
use std::marker::Model;
use std::rc::Rc;

/// The packet of a cast. It is kept once, however many copies share it.
#[derive(Drop)]
pub struct SharedPacket {
    bytes: Rc<Bytes>,
}

impl Model for SharedPacket {
    ghost use Rattle.std.specs.Prelude.{List, ℕ};

    ghost Value = { List ℕ };

    ghost view = { λ p. p.bytes.value };
}

impl SharedPacket {
    /// A packet that nobody shares yet.
    pub fn new(alloc: Global, bytes: Bytes) -> Result<SharedPacket, NoMemory>
        ensures { IfOk result (λ packet. packet ≡ bytes) }
    {
        Ok(SharedPacket {
            bytes: Rc::new(alloc, bytes)?,
        })
    }

    /// The same packet, shared once more, which takes no memory. None if the packet is shared so
    /// often that one more can't be counted.
    pub fn share(&self) -> Option<SharedPacket>
        ensures { IfSome result (λ packet. packet ≡ self.now) }
    {
        match self.bytes.clone() {
            Ok(bytes) => Some(SharedPacket { bytes }),
            Err(_) => None,
        }
    }

    /// The bytes.
    pub fn as_slice(&self) -> &[u8]
        ensures { result.now ≡ self.now }
    {
        self.bytes.as_ref().as_slice()
    }
}
