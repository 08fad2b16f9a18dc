//! A router's peers.
ghost use Rattle.std.specs.Prelude.{◌≡◌, ◌<◌, ◌≤◌, ◌↔◌, length, insert, option_map, position, ◌==◌, IsNone, IfSome, Some, None};
ghost use Rattle.mesh_base.specs.Meshes.{index_of, with_node};
ghost use Rattle.mesh_script.specs.Peers as peers;

use arrayvec::ArrayVec;
use mesh_base::{Addr, MOST_NODES, Mesh};
use std::marker::Model;

/// A router's mesh: the node itself, once it is named, and its peers, each at a port of this
/// machine. Nothing is allocated for it.
#[derive(Drop)]
pub struct Peers {
    mesh: Mesh,
    me: Option<usize>,
    // One port for each node, which is 0 for the node itself.
    ports: ArrayVec<u16, MOST_NODES>,
}

impl Model for Peers {
    ghost use Rattle.mesh_script.specs.Peers.{PeersSeen, ArePeers, peers_code};

    ghost Value = { PeersSeen };

    ghost coded = { peers_code };

    ghost view = { λ p. record { mesh = p.mesh; me = p.me; ports = p.ports.items } };

    ghost invariant = { λ p.
        ArePeers (record { mesh = p.mesh; me = p.me; ports = p.ports.items }) };
}

// Adds a node and its port, both at the node's index, and returns the index.
fn join(
    mesh: &mut Mesh,
    ports: &mut ArrayVec<u16, MOST_NODES>,
    a: Addr,
    first: u32,
    port: u16,
) -> usize
    requires absent { index_of mesh.old a.0 ≡ None }
    requires room { length mesh.old < MOST_NODES }
    requires first { 1 ≤ first }
    requires each { length ports.old.items ≡ length mesh.old }
    ensures index { result ≡ peers.index_for mesh.old a.0 }
    ensures mesh { mesh.new ≡ with_node mesh.old a.0 first }
    ensures ports { ports.new.items ≡ insert ports.old.items result port }
    ensures within { result ≤ length mesh.old }
{
    match mesh.add(a, first) {
        Ok(()) => {
            // This call says that the mesh has distinct addresses.
            let _nodes = mesh.len();
            let Some(index) = mesh.index_of(a) else {
                unreachable!();
            };
            ports.insert(index, port);
            index
        }
        Err(_) => unreachable!(),
    }
}

// The index of the node itself once one more node is at this index.
fn shifted(index: usize, me: Option<usize>) -> Option<usize>
    requires { IfSome me (λ i. i < MOST_NODES) }
    ensures { result ≡ option_map (peers.moved_index index) me }
{
    match me {
        Some(i) if index <= i => Some(i + 1),
        other => other,
    }
}

// The first index that has this port.
fn index_of_port(ports: &[u16], port: u16) -> Option<usize>
    ensures value { result ≡ position (λ q. q == port) ports.now }
    ensures within { IfSome result (λ i. i < length ports.now) }
{
    ports.iter().position(|q| *q == port)
}

impl Peers {
    /// A mesh without nodes.
    pub fn new() -> Peers
        ensures { result ≡ peers.no_peers }
    {
        Peers {
            mesh: Mesh::new(),
            me: None,
            ports: ArrayVec::new(),
        }
    }

    /// The node itself and its peers. A peer's first sequence number is 1 here.
    pub fn mesh(&self) -> &Mesh
        ensures mesh { result.now ≡ self.now.mesh }
        ensures sound { peers.ArePeers self.now }
    {
        &self.mesh
    }

    /// The node itself. None until it is named.
    pub fn me(&self) -> Option<usize>
        ensures value { result ≡ self.now.me }
        ensures within { IfSome result (λ i. i < length self.now.mesh) }
    {
        self.me
    }

    /// The port of a peer. None exactly for the node itself.
    pub fn port(&self, i: usize) -> Option<u16>
        requires { i < length self.now.mesh }
        ensures value { result ≡ peers.port_of self.now i }
        ensures none { IsNone result ↔ (self.now.me ≡ Some i) }
    {
        let port = self.ports.as_slice()[i];
        if port == 0 { None } else { Some(port) }
    }

    /// The peer at a port. None exactly where there is no peer.
    pub fn at_port(&self, port: u16) -> Option<usize>
        ensures value { result ≡ peers.at_port self.now port }
        ensures within { IfSome result (λ i. i < length self.now.mesh) }
    {
        if port == 0 {
            return None;
        }
        index_of_port(self.ports.as_slice(), port)
    }

    /// The node itself joins the mesh.
    pub fn set_self(&mut self, a: Addr, first: u32)
        requires none { self.old.me ≡ None }
        requires absent { index_of self.old.mesh a.0 ≡ None }
        requires room { length self.old.mesh < MOST_NODES }
        requires first { 1 ≤ first }
        ensures { self.new ≡ peers.with_self self.old a.0 first }
    {
        let index = join(&mut self.mesh, &mut self.ports, a, first, 0);
        self.me = Some(index);
    }

    /// A peer joins the mesh.
    pub fn add_peer(&mut self, a: Addr, port: u16)
        requires absent { index_of self.old.mesh a.0 ≡ None }
        requires free { peers.at_port self.old port ≡ None }
        requires room { length self.old.mesh < MOST_NODES }
        requires port { 1 ≤ port }
        ensures { self.new ≡ peers.with_peer self.old a.0 port }
    {
        let me = self.me;
        let index = join(&mut self.mesh, &mut self.ports, a, 1, port);
        let me = shifted(index, me);
        self.me = me;
    }
}
