//! An owned list of nodes, from which a world is made.
ghost use Rattle.std.specs.Prelude.{◌≡◌, ◌<◌, ◌≤◌, ◌+◌, ◌-◌, ◌∷◌, ◌++◌, [], length, IsOk, OnOk, OnErr};

use aodv_node::Node;
use mesh_base::NoMemory;
use std::alloc::Global;
use std::marker::Model;

/// An owned list of nodes. Room is made before a node is added, so that adding it takes no memory.
#[derive(Drop)]
pub struct Nodes {
    items: Vec<Node>,
}

impl Model for Nodes {
    ghost use Rattle.std.specs.Prelude.{◌-◌};
    ghost use Rattle.std.specs.Vec.{vec_len, vec_capacity};
    ghost use Rattle.mesh_world.specs.Lists.{NodeList, list_code};

    ghost Value = { NodeList };

    ghost coded = { list_code };

    ghost view = { λ n. record {
      nodes = n.items.items;
      room = vec_capacity n.items - vec_len n.items;
    } };
}

impl Nodes {
    /// No nodes. This takes no memory.
    pub fn new(alloc: Global) -> Nodes
        ensures { result.nodes ≡ [] }
    {
        Nodes {
            items: Vec::new(alloc),
        }
    }

    /// Makes room for one more node. It asks for memory only if there is no room.
    pub fn make_room(&mut self) -> Result<(), NoMemory>
        ensures nodes { self.new.nodes ≡ self.old.nodes }
        ensures here { OnOk result (0 < self.new.room) }
        ensures there { 0 < self.old.room → IsOk result }
        ensures keeps { self.old.room ≤ self.new.room }
        ensures refused { OnErr result (self.new ≡ self.old) }
    {
        self.items.reserve(1)?;
        Ok(())
    }

    /// Adds a node at the end, which uses up the room for one.
    pub fn push(&mut self, node: Node)
        requires { 0 < self.old.room }
        ensures nodes { self.new.nodes ≡ self.old.nodes ++ node ∷ [] }
        ensures room { self.new.room ≡ self.old.room - 1 }
    {
        self.items.push_reserved(node);
    }

    /// The number of nodes.
    pub fn len(&self) -> usize
        ensures { result ≡ length self.now.nodes }
    {
        self.items.len()
    }

    /// The nodes.
    pub(crate) fn into_vec(self) -> Vec<Node>
        ensures { result.items ≡ self.nodes }
    {
        self.items
    }
}
