//! A router.
ghost use Rattle.std.specs.Prelude.{◌≡◌, ◌≢◌, ◌<◌, ◌≤◌, ℕ, [], length, IfOk, IsOk, OnOk, OnErr};
ghost use Rattle.std.specs.FinMap as maps;
ghost use Rattle.std.specs.FinSet as sets;
ghost use Rattle.mesh_base.specs.Meshes.{first_at};
ghost use Rattle.mesh_base.specs.declared.events.Item.TheVariants as items;
ghost use Rattle.mesh_base.specs.declared.events.Variant.TheVariants.{Base};
ghost use Rattle.aodv_model.specs.Cores.{opening};
ghost use Rattle.aodv_model.specs.Handlers.{may_send, may_ask};
ghost use Rattle.aodv_model.specs.Soundness.{IsDatum};
ghost use Rattle.aodv_node.specs.Seen.{NodeSeen, IsSoundNode, with_queued};
ghost use Rattle.aodv_node.specs.Turned.{IsTurn, IsTurnOn};
ghost use Rattle.aodv_node.specs.Discovered.{IsSend, IsAsk};
ghost use Rattle.aodv_node.specs.Restored.{node_of, IsRestored};

use crate::answers::{AskError, SendError, TurnDone, TurnError, Unfit};
use crate::discovery::{try_ask, try_send};
use crate::heard::handle;
use crate::sound::{are_items_at, is_sound_table};
use crate::turns::take_turn;
use aodv_asked::Asked;
use aodv_handlers::Core;
use aodv_inbox::Inbox;
use aodv_model::Entry;
use aodv_table::{RowTable, Table};
use aodv_waiting::Waiting;
use mesh_base::{Bytes, Effect, Item, Kind, Mesh, NoMemory, NodeSet, Packet, Variant};
use std::alloc::Global;
use std::marker::Model;

/// One AODV router. It is used with the mesh that it was made with. Its inbox is right before what
/// a core is asked for each packet that is heard, so that an event at a node reads few lines of the
/// cache.
#[derive(Drop)]
pub struct Node {
    inbox: Inbox,
    core: Core<RowTable>,
}

impl Model for Node {
    ghost use Rattle.aodv_handlers.specs.Shown.{IsInOrder};
    ghost use Rattle.aodv_node.specs.Seen.{NodeSeen, node_code, node_seen, IsSoundNode};

    ghost Value = { NodeSeen };

    ghost coded = { node_code };

    ghost view = { λ a. node_seen (λ t. t.nodes) (λ t. t.entries) a.core a.inbox };

    ghost invariant = { λ a. IsInOrder (λ t. t.nodes) (λ t. t.entries) (a.core).table.nodes a.core
        × IsSoundNode (node_seen (λ t. t.nodes) (λ t. t.entries) a.core a.inbox) };
}

impl Node {
    /// Node `me` of the mesh, in its opening state, with the protocol as AWN has it.
    pub fn new(alloc: Global, mesh: &Mesh, me: usize) -> Result<Node, NoMemory>
        requires { me < length mesh.now }
        ensures core { IfOk result (λ node. node.core ≡ opening Base me (first_at mesh.now me)) }
        ensures items { IfOk result (λ node. node.items ≡ []) }
        ensures size { IfOk result (λ node. node.size ≡ length mesh.now) }
    {
        Node::with(alloc, mesh, me, Variant::Base)
    }

    /// Node `me` of the mesh, in its opening state, with this variant of the protocol: it has no
    /// routes, its own number is the mesh's first for it, and nothing waits.
    pub fn with(alloc: Global, mesh: &Mesh, me: usize, variant: Variant) -> Result<Node, NoMemory>
        requires { me < length mesh.now }
        ensures core { IfOk result (λ n. n.core ≡ opening variant me (first_at mesh.now me)) }
        ensures items { IfOk result (λ node. node.items ≡ []) }
        ensures size { IfOk result (λ node. node.size ≡ length mesh.now) }
    {
        let nodes = mesh.len();
        let core = Core {
            me,
            sn: mesh.first(me),
            variant,
            table: RowTable::new(alloc, nodes)?,
            asked: Asked::new(alloc, nodes)?,
            waiting: Waiting::new(alloc, nodes)?,
        };
        Ok(Node {
            core,
            inbox: Inbox::new(alloc)?,
        })
    }

    /// Node `me` of the mesh with these parts, which were made for its size. The call takes no
    /// memory, and goes through the entries and the items once. It is refused for the first that
    /// applies of Core and Item; the parts are then dropped.
    pub fn from_parts(
        mesh: &Mesh,
        me: usize,
        variant: Variant,
        sn: u32,
        table: RowTable,
        asked: Asked,
        waiting: Waiting,
        inbox: Inbox,
    ) -> Result<Node, Unfit>
        requires me { me < length mesh.now }
        requires sn { 1 ≤ sn }
        requires table { table.nodes ≡ length mesh.now }
        requires asked { length asked.rooms ≡ length mesh.now }
        requires waiting { length waiting.rooms ≡ length mesh.now }
        ensures { IsRestored (node_of variant me sn table asked waiting inbox) result }
    {
        if !is_sound_table(&table, me) {
            return Err(Unfit::Core);
        }
        if !are_items_at(&inbox, mesh.len(), me) {
            return Err(Unfit::Item);
        }
        // This tells the prover that the data that wait are in order.
        let _dests = waiting.dests();
        let core = Core {
            me,
            sn,
            variant,
            table,
            asked,
            waiting,
        };
        Ok(Node { core, inbox })
    }

    /// Makes room for one more item in the inbox. It asks for memory only if there is no room yet.
    pub fn make_room(&mut self) -> Result<(), NoMemory>
        ensures core { self.new.core ≡ self.old.core }
        ensures items { self.new.items ≡ self.old.items }
        ensures size { self.new.size ≡ self.old.size }
        ensures here { OnOk result (0 < self.new.room) }
        ensures there { 0 < self.old.room → IsOk result }
        ensures still { 0 < self.old.room → self.new ≡ self.old }
        ensures keeps { self.old.room ≤ self.new.room }
        ensures refused { OnErr result (self.new ≡ self.old) }
    {
        self.inbox.make_room()
    }

    /// Gives the node a datum for `dest`. The datum joins the inbox.
    pub fn give(&mut self, dest: usize, body: Bytes)
        requires room { 0 < self.old.room }
        requires dest { dest < self.old.size }
        requires datum { IsDatum body }
        ensures { self.new ≡ with_queued self.old (items.New dest body) }
    {
        self.inbox.push(Item::New { dest, body });
    }

    /// The node hears a packet, whatever its bytes are. The packet joins the inbox.
    pub fn hear(&mut self, from: usize, bytes: Bytes)
        requires room { 0 < self.old.room }
        requires from { from < self.old.size }
        requires other { from ≢ self.old.core.ip }
        ensures { self.new ≡ with_queued self.old (items.Heard from bytes) }
    {
        self.inbox.push(Item::Heard { from, bytes });
    }

    /// Takes the front item of the inbox and does what AODV does with it; `range` has the nodes
    /// that are in range. The packet that is cast is left in `out`. A call is refused for the first
    /// that applies of Idle, Refused, Stranger, NoMemory and Full. It can run out of memory only
    /// if the item needs some: a datum for another node, or a route request.
    pub fn turn(
        &mut self,
        mesh: &Mesh,
        range: &NodeSet,
        out: &mut Packet,
    ) -> Result<TurnDone, TurnError>
        requires mesh { length mesh.now ≡ self.old.size }
        ensures turn { IsTurn mesh.now range.now self.old result self.new out.new.items }
        ensures me { self.new.core.ip ≡ self.old.core.ip }
        ensures size { self.new.size ≡ self.old.size }
    {
        // This tells the prover that the table has a row for every node.
        let _nodes = self.core.table.nodes();
        take_turn(&mut self.core, &mut self.inbox, mesh, range, out)
    }

    /// Takes a packet as the node hears it, while its inbox is empty, and does what `hear` and then
    /// `turn` do, but the bytes don't join the inbox. It answers the packet's kind and what the
    /// node did with it. A refusal is that of `turn`, but changes nothing.
    pub fn turn_on(
        &mut self,
        mesh: &Mesh,
        range: &NodeSet,
        from: usize,
        bytes: &[u8],
        out: &mut Packet,
    ) -> Result<(Kind, Effect), TurnError>
        requires mesh { length mesh.now ≡ self.old.size }
        requires from { from < self.old.size }
        requires other { from ≢ self.old.core.ip }
        requires empty { self.old.items ≡ [] }
        ensures turn { let old = self.old in
            IsTurnOn mesh.now range.now old from bytes.now result self.new out.new.items }
        ensures others { self.new ≡ record (self.old) { core = self.new.core } }
        ensures me { self.new.core.ip ≡ self.old.core.ip }
    {
        // This tells the prover that the table has a row for every node.
        let _nodes = self.core.table.nodes();
        handle(&mut self.core, mesh, range, from, bytes, out)
    }

    /// Sends the first datum that waits for `dest` to the next hop, if there is a valid route. If
    /// the next hop isn't in `range`, the datum stays, and all routes by that hop become invalid.
    /// The call takes no memory.
    pub fn send(
        &mut self,
        mesh: &Mesh,
        range: &NodeSet,
        dest: usize,
        out: &mut Packet,
    ) -> Result<Effect, SendError>
        requires mesh { length mesh.now ≡ self.old.size }
        requires dest { dest < self.old.size }
        ensures does { let new = self.new.core in
            IsSend mesh.now range.now self.old.core dest result new out.new.items }
        ensures others { self.new ≡ record (self.old) { core = self.new.core } }
        ensures me { self.new.core.ip ≡ self.old.core.ip }
    {
        try_send(&mut self.core, mesh, range, dest, out)
    }

    /// Asks all neighbours for a route to `dest`, if data wait for it, there is no valid route, and
    /// a request is still to be made. A call is refused for the first that applies of Idle, Full
    /// and NoMemory. It can run out of memory only if the request's id doesn't follow one that was
    /// seen.
    pub fn ask(&mut self, mesh: &Mesh, dest: usize, out: &mut Packet) -> Result<Effect, AskError>
        requires mesh { length mesh.now ≡ self.old.size }
        requires dest { dest < self.old.size }
        ensures does { IsAsk mesh.now self.old.core dest result self.new.core out.new.items }
        ensures others { self.new ≡ record (self.old) { core = self.new.core } }
        ensures me { self.new.core.ip ≡ self.old.core.ip }
    {
        try_ask(&mut self.core, mesh, dest, out)
    }

    /// The destinations for which a datum may be sent: data wait, and there is a valid route.
    pub fn sendable(&self) -> NodeSet
        ensures { (d : ℕ) → sets.contains result d ≡ may_send self.now.core d }
    {
        let mut dests = self.core.waiting.dests();
        dests.meet(&self.core.table.valid());
        dests
    }

    /// The destinations for which a request may be made: data wait, a request is still to be made,
    /// and there is no valid route.
    pub fn askable(&self) -> NodeSet
        ensures { (d : ℕ) → sets.contains result d ≡ may_ask self.now.core d }
    {
        let mut dests = self.core.waiting.needing();
        dests.leave(&self.core.table.valid());
        dests
    }

    /// The node's own sequence number.
    pub fn sn(&self) -> u32
        ensures value { result ≡ self.now.core.sn }
        ensures sound { IsSoundNode self.now }
    {
        self.core.sn
    }

    /// The entry of d, if it has one.
    pub fn entry(&self, d: usize) -> Option<Entry>
        requires { d < self.now.size }
        ensures { result ≡ maps.get self.now.core.rt d }
    {
        self.core.table.get(d)
    }

    /// The route requests that were seen.
    pub fn asked(&self) -> &Asked
        ensures pairs { result.now.pairs ≡ self.now.core.seen }
        ensures nodes { length result.now.rooms ≡ self.now.size }
    {
        &self.core.asked
    }

    /// The data that wait for a route.
    pub fn waiting(&self) -> &Waiting
        ensures store { result.now.store ≡ self.now.core.store }
        ensures nodes { length result.now.rooms ≡ self.now.size }
    {
        &self.core.waiting
    }

    /// What waits for the node's turns.
    pub fn inbox(&self) -> &Inbox
        ensures items { result.now.items ≡ self.now.items }
        ensures room { result.now.room ≡ self.now.room }
    {
        &self.inbox
    }
}
