//! A link that never fails.
ghost use Rattle.std.specs.Prelude.{◌≡◌, ◌∷◌, [], length, take, drop, min, ◌++◌, Some, None};
ghost use Rattle.mesh_link.specs.Datagrams.{datagram};
ghost use Rattle.mesh_link.specs.Memory.{sure_port, sure_arrived};

use crate::link::Link;
use mesh_base::Bytes;
use mesh_io::Failed;

/// Copies the first bytes to the start of the buffer, as many as fit, and returns how many.
pub(crate) fn copy_front(bytes: &[u8], buf: &mut [u8]) -> usize
    ensures count { result ≡ min (length bytes.now) (length buf.old) }
    ensures copied { buf.new ≡ take result bytes.now ++ drop result buf.old }
    ensures front { take result buf.new ≡ take result bytes.now }
    ensures length { length buf.new ≡ length buf.old }
{
    let n = bytes.len().min(buf.len());
    buf[..n].copy_from_slice(&bytes[..n]);
    n
}

/// A link at which one datagram has arrived, which keeps none that is sent and never fails.
#[derive(Drop)]
pub struct SureLink {
    port: Option<u16>,
    from: u16,
    // None once it was received.
    datagram: Option<Bytes>,
}

impl SureLink {
    /// A link that isn't open, at which this datagram has arrived from port `from`.
    pub fn new(from: u16, bytes: Bytes) -> SureLink
        ensures port { sure_port result ≡ None }
        ensures arrived { sure_arrived result ≡ datagram from bytes ∷ [] }
    {
        SureLink {
            port: None,
            from,
            datagram: Some(bytes),
        }
    }
}

impl Link for SureLink {
    ghost port = { sure_port };

    ghost arrived = { λ l. Some (sure_arrived l) };

    ghost sent = { λ l. None };

    ghost faults = { λ l. 0 };

    fn open(&mut self, at: u16) -> Result<(), Failed> {
        self.port = Some(at);
        Ok(())
    }

    fn receive(&mut self, buf: &mut [u8]) -> Result<Option<(u16, usize)>, Failed> {
        match self.datagram.take() {
            None => Ok(None),
            Some(bytes) => {
                let n = copy_front(bytes.as_slice(), buf);
                Ok(Some((self.from, n)))
            }
        }
    }

    fn send(&mut self, _to: u16, _bytes: &[u8]) -> Result<(), Failed> {
        Ok(())
    }
}
