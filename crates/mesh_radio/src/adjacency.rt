//! Undirected graphs on the nodes of a mesh.
ghost use Rattle.std.specs.Prelude.{◌≡◌, ◌≢◌, ◌<◌, ◌≤◌, ℕ, IfOk, true, false, length, slice_set, replicate};
ghost use Rattle.std.specs.FinSet as sets;
ghost use Rattle.mesh_model.specs.Worlds.{pair, are_linked, linked_below};
ghost use Rattle.mesh_radio.specs.Kept.{row};

use mesh_base::{MOST_NODES, NoMemory, NodeSet};
use std::alloc::Global;
use std::marker::Model;

/// An undirected graph: for each node the set of its neighbours.
#[derive(Drop)]
pub struct Adjacency {
    rows: Vec<NodeSet>,
}

impl Model for Adjacency {
    ghost use Rattle.mesh_radio.specs.Kept.{Graph, graph_code, graph_of, AreMutual};

    ghost Value = { Graph };

    ghost coded = { graph_code };

    ghost view = { λ g. graph_of g.rows.items };

    ghost invariant = { λ g. AreMutual g.rows.items };
}

impl Adjacency {
    /// The graph of this many nodes, none joined.
    pub fn new(alloc: Global, nodes: usize) -> Result<Adjacency, NoMemory>
        requires { nodes ≤ MOST_NODES }
        ensures { IfOk result (λ g. g ≡ record { size = nodes; pairs = sets.empty }) }
    {
        let rows = no_neighbours(alloc, nodes)?;
        Ok(Adjacency { rows })
    }

    /// Whether a and b are joined.
    pub fn has(&self, a: usize, b: usize) -> bool
        requires { a < self.now.size }
        ensures { result ≡ are_linked self.now.pairs a b }
    {
        self.rows[a].has(b)
    }

    /// The neighbours of a.
    pub fn neighbours(&self, a: usize) -> NodeSet
        requires { a < self.now.size }
        ensures value { result ≡ linked_below self.now.pairs a self.now.size }
        ensures below { (q : ℕ) → sets.contains result q ≡ true → q < self.now.size }
        ensures apart { sets.contains result a ≡ false }
    {
        self.rows[a]
    }

    /// Joins a and b.
    pub fn join(&mut self, a: usize, b: usize)
        requires first { a < self.old.size }
        requires second { b < self.old.size }
        requires differ { a ≢ b }
        ensures { self.new ≡ record self.old { pairs = sets.insert self.old.pairs (pair a b) } }
    {
        add_to(&mut self.rows, a, b);
        add_to(&mut self.rows, b, a);
    }

    /// Parts a and b.
    pub fn part(&mut self, a: usize, b: usize)
        requires first { a < self.old.size }
        requires second { b < self.old.size }
        requires differ { a ≢ b }
        ensures { self.new ≡ record self.old { pairs = sets.remove self.old.pairs (pair a b) } }
    {
        remove_from(&mut self.rows, a, b);
        remove_from(&mut self.rows, b, a);
    }
}

// One empty set for each node.
fn no_neighbours(alloc: Global, nodes: usize) -> Result<Vec<NodeSet>, NoMemory>
    ensures { IfOk result (λ rows. rows.items ≡ replicate nodes sets.empty) }
{
    let mut rows = Vec::with_capacity(alloc, nodes)?;
    for _ in 0..nodes {
        rows.push(NodeSet::new())?;
    }
    Ok(rows)
}

// Node b joins the neighbours of a.
fn add_to(rows: &mut Vec<NodeSet>, a: usize, b: usize)
    requires within { a < length rows.old.items }
    requires small { b < 256 }
    ensures { rows.new.items ≡ slice_set rows.old.items a (sets.insert (row rows.old.items a) b) }
{
    let neighbours = &mut rows[a];
    neighbours.add(b);
}

// Node b leaves the neighbours of a.
fn remove_from(rows: &mut Vec<NodeSet>, a: usize, b: usize)
    requires within { a < length rows.old.items }
    requires small { b < 256 }
    ensures { rows.new.items ≡ slice_set rows.old.items a (sets.remove (row rows.old.items a) b) }
{
    let neighbours = &mut rows[a];
    neighbours.remove(b);
}
