//! What can be read of a router. None of these calls changes it.
ghost use Rattle.std.specs.Prelude.{◌≡◌, ◌↔◌, [], length, IsTrue};
ghost use Rattle.std.specs.FinMap as maps;
ghost use Rattle.std.specs.FinSet as sets;
ghost use Rattle.mesh_base.specs.Meshes.{addr_at, index_of, IsMesh};
ghost use Rattle.aodv_model.specs.Cores.{bodies_in};
ghost use Rattle.aodv_model.specs.Handlers.{may_send, may_ask};
ghost use Rattle.aodv_node.specs.Seen.{IsSoundNode};
ghost use Rattle.aodv_router.specs.Stations.{addrs_where};
ghost use Rattle.aodv_router.specs.Rows.{IsAnswerAt, TellsRow};

use crate::answers::Stranger;
use crate::indices::{addr, addrs};
use crate::outcome::{Addrs, Row};
use crate::router::Router;
use crate::tells::tell_entry;
use mesh_base::Addr;

// ---- what may be done next

impl Router {
    /// Whether an item waits in the inbox for a turn.
    pub fn has_item(&self) -> bool
        ensures { IsTrue result ↔ ¬ (self.now.node.items ≡ []) }
    {
        !self.node.inbox().is_empty()
    }

    /// The addresses for which `send` may be called: data wait, and there is a valid route.
    pub fn sendable(&self) -> Addrs
        ensures { result.items ≡ addrs_where self.now.nodes (λ d. may_send self.now.node.core d) }
    {
        addrs(&self.mesh, &self.node.sendable())
    }

    /// The addresses for which `ask` may be called: data wait, a request is still to be made, and
    /// there is no valid route.
    pub fn askable(&self) -> Addrs
        ensures { result.items ≡ addrs_where self.now.nodes (λ d. may_ask self.now.node.core d) }
    {
        addrs(&self.mesh, &self.node.askable())
    }
}

// ---- what the router has

impl Router {
    /// How many items wait in the inbox.
    pub fn items(&self) -> usize
        ensures { result ≡ length self.now.node.items }
    {
        self.node.inbox().len()
    }

    /// The number of nodes of the mesh, including the router itself.
    pub fn nodes(&self) -> usize
        ensures value { result ≡ length self.now.nodes }
        ensures mesh { IsMesh self.now.nodes }
    {
        self.mesh.len()
    }

    /// The router's own address.
    pub fn addr(&self) -> u32
        ensures { result ≡ addr_at self.now.nodes self.now.node.core.ip }
    {
        addr(&self.mesh, self.me)
    }

    /// The router's own sequence number. The router's state is in order, whatever it has heard.
    pub fn sn(&self) -> u32
        ensures value { result ≡ self.now.node.core.sn }
        ensures sound { IsSoundNode self.now.node }
    {
        self.node.sn()
    }

    /// The table's entry for an address, if there is one.
    pub fn entry(&self, dest: u32) -> Result<Option<Row>, Stranger>
        ensures { IsAnswerAt (index_of self.now.nodes dest) result (λ d row.
            TellsRow self.now.nodes (maps.get self.now.node.core.rt d) row) }
    {
        let Some(d) = self.mesh.index_of(Addr(dest)) else {
            return Err(Stranger);
        };
        match self.node.entry(d) {
            Some(entry) => Ok(Some(tell_entry(&self.mesh, &entry))),
            None => Ok(None),
        }
    }

    /// How many data wait for an address.
    pub fn waiting(&self, dest: u32) -> Result<usize, Stranger>
        ensures { IsAnswerAt (index_of self.now.nodes dest) result (λ d n.
            n ≡ length (bodies_in (maps.get self.now.node.core.store d))) }
    {
        let Some(d) = self.mesh.index_of(Addr(dest)) else {
            return Err(Stranger);
        };
        Ok(self.node.waiting().count(d))
    }

    /// Whether the request of an originator with this id was seen. In the variant `Number` requests
    /// are told apart by their originator's number, which is given here in place of the id.
    pub fn has_seen(&self, originator: u32, id: u32) -> Result<bool, Stranger>
        ensures { IsAnswerAt (index_of self.now.nodes originator) result (λ o seen.
            seen ≡ sets.contains self.now.node.core.seen (o, id)) }
    {
        let Some(o) = self.mesh.index_of(Addr(originator)) else {
            return Err(Stranger);
        };
        Ok(self.node.asked().has(o, id))
    }
}
