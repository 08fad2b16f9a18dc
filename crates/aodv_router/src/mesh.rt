//! The mesh of some addresses.
ghost use Rattle.std.specs.Prelude.{◌≡◌, ◌≢◌, ◌≤◌, ℕ, Ok, Err, Some, OnOk, IfOk, IfErr, IsSome, MatchResult};
ghost use Rattle.mesh_base.specs.Meshes.{first_at, index_of, with_node};
ghost use Rattle.aodv_router.specs.Meshes.{joined, number_for, mesh_of};

use crate::answers::NewError;
use mesh_base::{Addr, Mesh, MeshError};

// One more address joins the mesh.
fn join(mesh: &mut Mesh, a: u32, first: u32) -> Result<(), NewError>
    requires { 1 ≤ first }
    ensures value { MatchResult result (λ _. joined mesh.old a first ≡ Ok mesh.new)
        (λ e. joined mesh.old a first ≡ Err e) }
    ensures grown { OnOk result (mesh.new ≡ with_node mesh.old a first) }
    ensures why { IfErr result (λ e. e ≢ NewError.NoMemory) }
{
    let _nodes = mesh.len();
    match mesh.add(Addr(a), first) {
        Ok(()) => Ok(()),
        Err(MeshError::Twice) => Err(NewError::Twice),
        Err(MeshError::TooMany) => Err(NewError::TooMany),
    }
}

// The first number of an address.
fn number_for(me: u32, first: u32, a: u32) -> u32
    requires { 1 ≤ first }
    ensures value { result ≡ number_for me first a }
    ensures positive { 1 ≤ result }
{
    if a == me { first } else { 1 }
}

/// The mesh of exactly these addresses, in which the router's own has this first number.
#[tactic(auto, unfolding(crate::specs::Meshes::all_joined, crate::specs::Meshes::mesh_of))]
pub(crate) fn mesh_of(addrs: &[u32], me: u32, first: u32) -> Result<Mesh, NewError>
    ensures value { result ≡ mesh_of addrs.now me first }
    ensures own { IfOk result (λ nodes. IsSome (index_of nodes me)) }
    ensures number { IfOk result (λ nodes. (i : ℕ) → index_of nodes me ≡ Some i
        → first_at nodes i ≡ first) }
    ensures why { IfErr result (λ e. e ≢ NewError.NoMemory) }
{
    if first == 0 {
        return Err(NewError::ZeroNumber);
    }
    let mut mesh = Mesh::new();
    for a in addrs {
        match join(&mut mesh, *a, number_for(me, first, *a)) {
            Ok(()) => {}
            Err(why) => return Err(why),
        }
    }
    match mesh.index_of(Addr(me)) {
        Some(_) => Ok(mesh),
        None => Err(NewError::NotThere),
    }
}
