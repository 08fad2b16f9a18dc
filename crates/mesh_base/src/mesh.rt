//! The nodes of a mesh.
ghost use Rattle.std.specs.Prelude.{◌≡◌, ◌≤◌, ◌<◌, ◌+◌, ◌++◌, ◌↔◌, ℕ, [], length, None, IsTrue, IsSome, is_some, IsErrOf, OnOk, OnErr, IfSome};
ghost use Rattle.std.specs.Option.{option_map};
ghost use Rattle.mesh_base.specs.Addresses.{address_of, dotted_decimal};
ghost use Rattle.mesh_base.specs.InlineBytes.{inline_bytes};
ghost use Rattle.mesh_base.specs.Meshes.{Nodes, IsMesh, addr_at, first_at, index_of, index_in, with_node};

use crate::addr::Addr;
use crate::few::ShortText;
use crate::limits::{ADDRESS_WIDTH, LINE_CAPACITY, MOST_NODES};
use crate::line_buf::LineBuf;
use crate::octets::Stem;
use arrayvec::ArrayVec;
use std::marker::Model;
use thiserror::Error;

/// Why a node isn't added to a mesh.
#[derive(Clone, Copy, Debug, PartialEq, Eq, Error)]
pub enum MeshError {
    /// The mesh already has a node of this address.
    #[error("the mesh has a node of this address")]
    Twice,
    /// The mesh already has 200 nodes.
    #[error("the mesh has 200 nodes")]
    TooMany,
}

/// At most 200 nodes, each an address and its first sequence number of at least 1, in ascending
/// order of address. It takes no memory beyond its own size.
#[derive(Drop)]
pub struct Mesh {
    nodes: ArrayVec<(u32, u32), MOST_NODES>,
    stem: Stem,
}

impl Model for Mesh {
    ghost use Rattle.mesh_base.specs.Meshes.{Nodes, IsMesh};

    ghost Value = { Nodes };

    ghost view = { λ m. m.nodes.items };

    ghost invariant = { λ m. IsMesh m.nodes.items };
}

// How many nodes have a lower address: a binary search.
fn count_below(nodes: &[(u32, u32)], a: u32) -> usize
    requires { IsMesh nodes.now }
    ensures within { result ≤ length nodes.now }
    ensures below { (i : ℕ) → i < result → addr_at nodes.now i < a }
    ensures above { (i : ℕ) → result ≤ i → i < length nodes.now → a ≤ addr_at nodes.now i }
{
    nodes.partition_point(|node| node.0 < a)
}

// The index of an address, if the addresses up to it are consecutive, as they are in most meshes.
#[inline]
fn consecutive_index(nodes: &[(u32, u32)], a: u32) -> Option<usize>
    ensures { IfSome result (λ i. (i < length nodes.now) × (addr_at nodes.now i ≡ a)) }
{
    let (first, _) = *nodes.first()?;
    let index = a.wrapping_sub(first) as usize;
    if index < nodes.len() && nodes[index].0 == a {
        Some(index)
    } else {
        None
    }
}

impl Mesh {
    /// A mesh without nodes.
    pub fn new() -> Mesh
        ensures { result ≡ [] }
    {
        Mesh {
            nodes: ArrayVec::new(),
            stem: Stem::of(Addr(0)),
        }
    }

    /// The number of nodes.
    pub fn len(&self) -> usize
        ensures value { result ≡ length self.now }
        ensures is_mesh { IsMesh self.now }
    {
        self.nodes.len()
    }

    /// Whether there is no node.
    pub fn is_empty(&self) -> bool
        ensures { IsTrue result ↔ (self.now ≡ []) }
    {
        self.nodes.is_empty()
    }

    /// The address of node i.
    pub fn at(&self, i: usize) -> Addr
        requires { i < length self.now }
        ensures { result.0 ≡ addr_at self.now i }
    {
        Addr(self.nodes.as_slice()[i].0)
    }

    /// The address of node i in its written form: at most 15 bytes.
    #[inline(always)]
    pub fn name(&self, i: usize) -> ShortText
        requires { i < length self.now }
        ensures { inline_bytes result ≡ dotted_decimal (addr_at self.now i) }
    {
        self.stem.dotted(self.at(i))
    }

    /// Appends the address of node i in its written form: at most 15 bytes.
    #[inline(always)]
    pub fn push_name(&self, i: usize, out: &mut LineBuf)
        requires node { i < length self.now }
        requires room { length out.old.items + ADDRESS_WIDTH ≤ LINE_CAPACITY }
        ensures text { out.new.items ≡ out.old.items ++ dotted_decimal (addr_at self.now i) }
        ensures length { length out.new.items ≤ length out.old.items + ADDRESS_WIDTH }
    {
        self.stem.write(self.at(i), out);
    }

    /// Reads an address as `Addr::parse` does. It is faster if the text begins with the first three
    /// numbers of the address that was added last, which most of a mesh share, and these have at
    /// most 8 bytes with their dots: then mostly only the last number has to be read.
    #[inline(always)]
    pub fn parse_addr(&self, text: &[u8]) -> Option<Addr>
        ensures { option_map (λ a. a.0) result ≡ address_of text.now }
    {
        self.stem.read(text)
    }

    /// The first sequence number of node i.
    pub fn first(&self, i: usize) -> u32
        requires { i < length self.now }
        ensures value { result ≡ first_at self.now i }
        ensures positive { 1 ≤ result }
    {
        self.nodes.as_slice()[i].1
    }

    /// The node of an address. It is found in one step if the addresses up to it are consecutive,
    /// and otherwise by a binary search.
    #[inline(always)]
    pub fn index_of(&self, a: Addr) -> Option<usize>
        ensures value { result ≡ index_of self.now a.0 }
        ensures within { IfSome result (λ i. i < length self.now) }
    {
        let nodes = self.nodes.as_slice();
        if let Some(index) = consecutive_index(nodes, a.0) {
            return Some(index);
        }
        let index = count_below(nodes, a.0);
        if index == nodes.len() {
            return None;
        }
        if nodes[index].0 == a.0 {
            Some(index)
        } else {
            None
        }
    }

    /// The node of an address that is in the mesh.
    #[tactic(auto, unfolding(crate::specs::Meshes::index_in))]
    pub fn index_in(&self, a: Addr) -> usize
        requires { IsTrue (is_some (index_of self.now a.0)) }
        ensures value { result ≡ index_in self.now a.0 }
        ensures within { result < length self.now }
    {
        match self.index_of(a) {
            Some(i) => i,
            None => unreachable!(),
        }
    }

    /// Adds a node.
    pub fn add(&mut self, a: Addr, first: u32) -> Result<(), MeshError>
        requires { 1 ≤ first }
        ensures added { OnOk result (self.new ≡ with_node self.old a.0 first) }
        ensures twice { IsErrOf result MeshError.Twice ↔ IsSome (index_of self.old a.0) }
        ensures too_many { IsErrOf result MeshError.TooMany
            ↔ ((index_of self.old a.0 ≡ None) × (length self.old ≡ MOST_NODES)) }
        ensures same { OnErr result (self.new ≡ self.old) }
    {
        let None = self.index_of(a) else {
            return Err(MeshError::Twice);
        };
        if self.nodes.is_full() {
            return Err(MeshError::TooMany);
        }
        let index = count_below(self.nodes.as_slice(), a.0);
        self.nodes.insert(index, (a.0, first));
        self.stem = Stem::of(a);
        Ok(())
    }

    /// An equal mesh.
    pub fn copy(&self) -> Mesh
        ensures { result ≡ self.now }
    {
        let mut nodes = ArrayVec::new();
        for node in self.nodes.as_slice() {
            nodes.push(*node);
        }
        Mesh {
            nodes,
            stem: self.stem,
        }
    }
}
