//! A router with its mesh, and what makes it act.
ghost use Rattle.std.specs.Prelude.{◌≡◌, ◌≢◌, [], Ok, Err, Some, IfOk, IfErr, IsOk, IsErrOf, OnErr};
ghost use Rattle.mesh_base.specs.Meshes.{index_of};
ghost use Rattle.aodv_model.specs.Cores.{opening};
ghost use Rattle.aodv_router.specs.Meshes.{mesh_of};
ghost use Rattle.aodv_router.specs.Joined.{IsHeardFrom, IsGivenFor};
ghost use Rattle.aodv_router.specs.Outcomes.{NamesTheMesh};
ghost use Rattle.aodv_router.specs.Steps.{IsTurnOf, IsSendOf, IsAskOf};

use crate::answers::{AskError, GiveError, HearError, NewError, SendError, TurnError};
use crate::indices::indices_of;
use crate::mesh::mesh_of;
use crate::outcome::Outcome;
use crate::tells::{tell_ask, tell_send, tell_turn};
use aodv_node::Node;
use mesh_base::{Addr, Bytes, LONGEST_DATUM, Mesh, NoMemory, Packet, Variant};
use std::alloc::Global;
use std::marker::Model;

/// A router and its mesh.
#[derive(Drop)]
pub struct Router {
    pub(crate) mesh: Mesh,
    pub(crate) node: Node,
    pub(crate) me: usize,
}

impl Model for Router {
    ghost use Rattle.std.specs.Prelude.{◌≡◌};
    ghost use Rattle.aodv_router.specs.Stations.{Station, IsStation, station_code};

    ghost Value = { Station };

    ghost coded = { station_code };

    ghost view = { λ r. record { nodes = r.mesh; node = r.node } };

    ghost invariant = { λ r. IsStation (record { nodes = r.mesh; node = r.node })
        × ((r.node).core.ip ≡ r.me) };
}

impl Router {
    #[tactic(auto, using(crate::proofs::Numbers::opened_at))]
    /// A router in its opening state: it has no routes, and nothing waits. The mesh has exactly
    /// these addresses, each of them once and at most 200. `me` is the router's own, and `first`
    /// its first sequence number: a router that restarts has to begin above the last number that it
    /// had. A call is refused for the first reason that applies: ZeroNumber, then Twice or TooMany
    /// at the first address that can't join those before it, then NotThere.
    pub fn new(
        alloc: Global,
        addrs: &[u32],
        me: u32,
        first: u32,
        variant: Variant,
    ) -> Result<Router, NewError>
        ensures mesh { IfOk result (λ r. mesh_of addrs.now me first ≡ Ok r.nodes) }
        ensures me { IfOk result (λ r. index_of r.nodes me ≡ Some r.node.core.ip) }
        ensures core { IfOk result (λ r. r.node.core ≡ opening variant r.node.core.ip first) }
        ensures items { IfOk result (λ r. r.node.items ≡ []) }
        ensures refused { IfErr result (λ e.
            e ≢ NewError.NoMemory → mesh_of addrs.now me first ≡ Err e) }
        ensures short { IsErrOf result NewError.NoMemory → IsOk (mesh_of addrs.now me first) }
    {
        let mesh = match mesh_of(addrs, me, first) {
            Ok(mesh) => mesh,
            Err(why) => return Err(why),
        };
        let Some(i) = mesh.index_of(Addr(me)) else {
            unreachable!();
        };
        match Node::with(alloc, &mesh, i, variant) {
            Ok(node) => Ok(Router { mesh, node, me: i }),
            Err(NoMemory) => Err(NewError::NoMemory),
        }
    }

    /// A packet that a neighbour has cast joins the inbox, whatever its bytes are. They are read
    /// when the packet is taken.
    pub fn hear(&mut self, alloc: Global, from: u32, bytes: &[u8]) -> Result<(), HearError>
        ensures hear { IsHeardFrom self.old from bytes.now result self.new }
        ensures refused { OnErr result (self.new ≡ self.old) }
    {
        let Some(i) = self.mesh.index_of(Addr(from)) else {
            return Err(HearError::Stranger);
        };
        if i == self.me {
            return Err(HearError::Own);
        }
        let Ok(bytes) = Bytes::copy_of(alloc, bytes) else {
            return Err(HearError::NoMemory);
        };
        if self.node.make_room().is_err() {
            return Err(HearError::NoMemory);
        }
        self.node.hear(i, bytes);
        Ok(())
    }

    /// A datum for an address joins the inbox. A call is refused for the first that applies of
    /// Stranger and Length.
    pub fn give(&mut self, alloc: Global, dest: u32, body: &[u8]) -> Result<(), GiveError>
        ensures give { IsGivenFor self.old dest body.now result self.new }
        ensures refused { OnErr result (self.new ≡ self.old) }
    {
        let Some(i) = self.mesh.index_of(Addr(dest)) else {
            return Err(GiveError::Stranger);
        };
        if body.is_empty() || body.len() > LONGEST_DATUM {
            return Err(GiveError::Length);
        }
        let Ok(body) = Bytes::copy_of(alloc, body) else {
            return Err(GiveError::NoMemory);
        };
        if self.node.make_room().is_err() {
            return Err(GiveError::NoMemory);
        }
        self.node.give(i, body);
        Ok(())
    }

    /// Takes the front item of the inbox, and does what AODV does with it. `near` has the addresses
    /// in range now: a unicast to any other fails. Addresses that the mesh doesn't have are
    /// skipped. A call is refused for the first that applies of Idle, Refused, Stranger,
    /// NoMemory and Full. It can run out of memory only if the item needs some: a datum for another
    /// node, or a route request that the node hasn't seen before.
    pub fn turn(&mut self, near: &[u32]) -> Result<Outcome, TurnError>
        ensures turn { IsTurnOf self.old near.now result self.new }
        ensures names { IfOk result (λ o. NamesTheMesh self.old.nodes o) }
        ensures me { self.new.node.core.ip ≡ self.old.node.core.ip }
    {
        // This tells the prover that the node is in order, and that its mesh has distinct
        // addresses.
        let _number = self.node.sn();
        let _nodes = self.mesh.len();
        let range = indices_of(&self.mesh, near);
        let mut packet = Packet::new();
        let answer = self.node.turn(&self.mesh, &range, &mut packet);
        tell_turn(&self.mesh, &answer, packet)
    }

    /// Sends the first datum that waits for an address to the next hop, if there is a valid route.
    /// If the next hop isn't near, the datum stays, and all routes by that hop become invalid. The
    /// call takes no memory. It is refused for the first that applies of Stranger, Idle and Full.
    pub fn send(&mut self, near: &[u32], dest: u32) -> Result<Outcome, SendError>
        ensures send { IsSendOf self.old near.now dest result self.new }
        ensures names { IfOk result (λ o. NamesTheMesh self.old.nodes o) }
        ensures refused { OnErr result (self.new ≡ self.old) }
        ensures me { self.new.node.core.ip ≡ self.old.node.core.ip }
    {
        // This tells the prover that the node is in order, and that its mesh has distinct
        // addresses.
        let _number = self.node.sn();
        let _nodes = self.mesh.len();
        let Some(d) = self.mesh.index_of(Addr(dest)) else {
            return Err(SendError::Stranger);
        };
        let range = indices_of(&self.mesh, near);
        let mut packet = Packet::new();
        let answer = self.node.send(&self.mesh, &range, d, &mut packet);
        tell_send(&self.mesh, answer, packet)
    }

    /// Asks all neighbours for a route to an address, if data wait for it, there is no valid route,
    /// and a request is still to be made. A call is refused for the first that applies of Stranger,
    /// Idle, Full and NoMemory. It can run out of memory only if the request's id doesn't follow
    /// one that was seen.
    pub fn ask(&mut self, dest: u32) -> Result<Outcome, AskError>
        ensures ask { IsAskOf self.old dest result self.new }
        ensures names { IfOk result (λ o. NamesTheMesh self.old.nodes o) }
        ensures refused { OnErr result (self.new ≡ self.old) }
        ensures me { self.new.node.core.ip ≡ self.old.node.core.ip }
    {
        // This tells the prover that the node is in order, and that its mesh has distinct
        // addresses.
        let _number = self.node.sn();
        let _nodes = self.mesh.len();
        let Some(d) = self.mesh.index_of(Addr(dest)) else {
            return Err(AskError::Stranger);
        };
        let mut packet = Packet::new();
        let answer = self.node.ask(&self.mesh, d, &mut packet);
        tell_ask(&self.mesh, answer, packet)
    }
}
