//! Lists of nodes, and memory for them.
ghost use Rattle.std.specs.Prelude.{◌≡◌, ◌≤◌, ◌+◌, ◌++◌, ◌∷◌, [], length, OnOk};
ghost use Rattle.std.specs.Vec.{vec_capacity};

use mesh_base::NoMemory;
use std::alloc::Global;
use std::marker::Model;

/// A list of nodes, as it is kept: from the destination of a route to the node that holds it. It is
/// empty if there is no route.
#[derive(Drop)]
pub(crate) struct Walk {
    nodes: Vec<usize>,
}

impl Model for Walk {
    ghost use Rattle.std.specs.Prelude.{List, ℕ};

    ghost Value = { List ℕ };

    ghost view = { λ w. w.nodes.items };
}

impl Walk {
    /// No nodes.
    pub fn new(alloc: Global) -> Walk
        ensures { result ≡ [] }
    {
        Walk {
            nodes: Vec::new(alloc),
        }
    }

    /// Sets the list to these nodes, in the memory that it has, or more. If memory runs out, the
    /// list may be anything.
    pub fn copy(&mut self, nodes: &[usize]) -> Result<(), NoMemory>
        ensures { OnOk result (self.new ≡ nodes.now) }
    {
        self.nodes.clear();
        self.nodes.extend_from_slice(nodes)?;
        Ok(())
    }

    /// Removes all nodes.
    pub fn clear(&mut self)
        ensures { self.new ≡ [] }
    {
        self.nodes.clear();
    }

    /// The nodes.
    pub fn as_slice(&self) -> &[usize]
        ensures { result.now ≡ self.now }
    {
        self.nodes.as_slice()
    }

    /// Sets the list to these nodes and a last one, in the memory that it has, or more. If memory
    /// runs out, the list may be anything.
    pub fn write(&mut self, nodes: &[usize], last: usize) -> Result<(), NoMemory>
        ensures { OnOk result (self.new ≡ nodes.now ++ last ∷ []) }
    {
        self.nodes.clear();
        self.nodes.extend_from_slice(nodes)?;
        self.nodes.push(last)?;
        Ok(())
    }

    /// Sets the list to these two nodes, as `write` does.
    pub fn write_two(&mut self, first: usize, last: usize) -> Result<(), NoMemory>
        ensures { OnOk result (self.new ≡ first ∷ last ∷ []) }
    {
        self.nodes.clear();
        self.nodes.push(first)?;
        self.nodes.push(last)?;
        Ok(())
    }
}

/// Memory for one list, seen as the number of nodes that fit.
#[derive(Drop)]
pub(crate) struct Room {
    nodes: Vec<usize>,
}

impl Model for Room {
    ghost use Rattle.std.specs.Prelude.{◌≡◌, ℕ, []};
    ghost use Rattle.std.specs.Vec.{vec_capacity};

    ghost Value = { ℕ };

    ghost view = { λ r. vec_capacity r.nodes };

    ghost invariant = { λ r. r.nodes.items ≡ [] };
}

impl Room {
    /// No memory yet.
    pub fn new(alloc: Global) -> Room {
        Room {
            nodes: Vec::new(alloc),
        }
    }

    /// Makes room for this many nodes.
    pub fn make(&mut self, most: usize) -> Result<(), NoMemory>
        ensures { OnOk result (most ≤ self.new) }
    {
        self.nodes.reserve(most)?;
        Ok(())
    }

    /// These nodes, in this room's memory.
    pub fn fill(self, nodes: &[usize]) -> Walk
        requires { length nodes.now ≤ self }
        ensures { result ≡ nodes.now }
    {
        Walk {
            nodes: filled(self.nodes, nodes),
        }
    }

    /// These nodes and a last one, in this room's memory.
    pub fn fill_to(self, nodes: &[usize], last: usize) -> Walk
        requires { length nodes.now + 1 ≤ self }
        ensures { result ≡ nodes.now ++ last ∷ [] }
    {
        let mut list = filled(self.nodes, nodes);
        list.push_reserved(last);
        Walk { nodes: list }
    }
}

// The nodes, in the memory of an empty vector.
fn filled(room: Vec<usize>, nodes: &[usize]) -> Vec<usize>
    requires empty { room.items ≡ [] }
    requires fits { length nodes.now ≤ vec_capacity room }
    ensures items { result.items ≡ nodes.now }
    ensures room { vec_capacity room ≤ vec_capacity result }
{
    let mut list = room;
    match list.extend_from_slice(nodes) {
        Ok(()) => list,
        Err(_) => unreachable!(),
    }
}
