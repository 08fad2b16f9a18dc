//! Addresses as nodes of a mesh, and nodes as addresses.
ghost use Rattle.std.specs.Prelude.{◌≡◌};
ghost use Rattle.std.specs.FinSet as sets;
ghost use Rattle.mesh_base.specs.Meshes.{addr_at};
ghost use Rattle.aodv_router.specs.Stations.{indices_in, addrs_of};

use crate::outcome::Addrs;
use arrayvec::ArrayVec;
use mesh_base::{Addr, Mesh, NodeSet};

/// The nodes of these addresses. Addresses that the mesh doesn't have are skipped.
#[tactic(auto, unfolding(crate::specs::Stations::indices_in))]
pub(crate) fn indices_of(mesh: &Mesh, addrs: &[u32]) -> NodeSet
    ensures { result ≡ indices_in mesh.now sets.empty addrs.now }
{
    let mut set = NodeSet::new();
    // This tells the prover that there are at most 200 nodes.
    let _nodes = mesh.len();
    for a in addrs {
        if let Some(i) = mesh.index_of(Addr(*a)) {
            set.add(i);
        }
    }
    set
}

/// The address of node i. Beyond the mesh it is 0.
pub(crate) fn addr(mesh: &Mesh, i: usize) -> u32
    ensures { result ≡ addr_at mesh.now i }
{
    if i < mesh.len() { mesh.at(i).0 } else { 0 }
}

/// The addresses of the members of a set.
#[tactic(auto, unfolding(crate::specs::Stations::addrs_below))]
pub(crate) fn addrs(mesh: &Mesh, set: &NodeSet) -> Addrs
    ensures { result.items ≡ addrs_of mesh.now set.now }
{
    let mut addrs: Addrs = ArrayVec::new();
    for i in 0..mesh.len() {
        if set.has(i) {
            addrs.push(mesh.at(i).0);
        }
    }
    addrs
}
