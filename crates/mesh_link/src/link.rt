//! The link, which carries datagrams.
ghost use Rattle.std.specs.Prelude.{◌≡◌, ◌≤◌, ℕ, List, Option, Some, None, length, is_some, true, OnOk, OnErr, IfOk, IfSome};
ghost use Rattle.mesh_io.specs.Cause.{HasCause};
ghost use Rattle.mesh_link.specs.Datagrams.{Datagram, Receives, Sends};

use mesh_io::Failed;

/// Carries datagrams to and from a port of this machine.
pub trait Link {
    /// The port at which the link is open.
    ghost port: { Self → Option ℕ };

    /// The datagrams that have arrived and weren't received yet, if that is known.
    ghost arrived: { Self → Option (List Datagram) };

    /// The datagrams that were sent, if that is known.
    ghost sent: { Self → Option (List Datagram) };

    /// How often the link has failed: a number that never falls.
    ghost faults: { Self → ℕ };

    /// Opens the link at a port.
    fn open(&mut self, at: u16) -> Result<(), Failed>
        requires { port self.old ≡ None }
        ensures opened { OnOk result (port self.new ≡ Some at) }
        ensures refused { OnErr result (port self.new ≡ None) }
        ensures arrived { arrived self.new ≡ arrived self.old }
        ensures sent { sent self.new ≡ sent self.old }
        ensures cause { HasCause (faults self.old) (faults self.new) result };

    /// Takes the first datagram that has arrived, and copies its first bytes to the start of `buf`,
    /// as many as fit. Returns the port from which it came and how many bytes were copied, or None
    /// if nothing is there now. For a socket, the kernel keeps what has arrived in a buffer of its
    /// own, and silently drops the datagrams of a burst for which that buffer has no room.
    fn receive(&mut self, buf: &mut [u8]) -> Result<Option<(u16, usize)>, Failed>
        requires { is_some (port self.old) ≡ true }
        ensures bound { IfOk result (λ o. IfSome o (λ p. p.1 ≤ length buf.new)) }
        ensures length { length buf.new ≡ length buf.old }
        ensures arrived { Receives (arrived self.old) (arrived self.new) result buf.new }
        ensures port { port self.new ≡ port self.old }
        ensures sent { sent self.new ≡ sent self.old }
        ensures cause { HasCause (faults self.old) (faults self.new) result };

    /// Sends the bytes to a port.
    fn send(&mut self, to: u16, bytes: &[u8]) -> Result<(), Failed>
        requires { is_some (port self.old) ≡ true }
        ensures sent { Sends (sent self.old) (sent self.new) to bytes.now result }
        ensures port { port self.new ≡ port self.old }
        ensures arrived { arrived self.new ≡ arrived self.old }
        ensures cause { HasCause (faults self.old) (faults self.new) result };
}
