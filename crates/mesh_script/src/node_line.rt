//! A line of a router's script.
use mesh_base::Addr;

/// A line that is allowed at its point of the script. A node is given as its index in the mesh.
#[derive(Clone, Copy)]
pub enum NodeLine<'a> {
    /// An empty line or a remark.
    Blank,
    /// The node itself, and its first sequence number.
    Own { addr: Addr, first: u32 },
    /// Another node, at a port of this machine.
    Peer { addr: Addr, port: u16 },
    /// The peer comes into range.
    Up { node: usize },
    /// The peer leaves the range.
    Down { node: usize },
    /// A datum for `dest` is given to the node: 1 to 512 bytes.
    Give { dest: usize, body: &'a [u8] },
    /// Up to `count` datagrams are received.
    Poll { count: u32 },
    /// Up to `count` turns are done.
    Turn { count: u32 },
    /// The first datum that waits for `dest` is sent.
    Send { dest: usize },
    /// A route to `dest` is asked for.
    Ask { dest: usize },
    /// The node's state is shown.
    Show,
}
