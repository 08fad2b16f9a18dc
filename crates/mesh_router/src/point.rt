//! How far the run of a router's script has come.
ghost use Rattle.std.specs.Prelude.{◌≡◌, ◌<◌, ◌≤◌, is_some, true, false, length, OnOk, OnErr, None};
ghost use Rattle.mesh_base.specs.Bounds.{most_lines};
ghost use Rattle.mesh_base.specs.Meshes.{index_of};
ghost use Rattle.mesh_base.specs.declared.limits.TheConstants.{MOST_NODES};
ghost use Rattle.mesh_script.specs.Peers.{with_self, with_peer, at_port};
ghost use Rattle.mesh_router.specs.Routers as routers;
ghost use Rattle.mesh_router.specs.Routers.{peers_in, router_in, is_running, counted_at};

use crate::router::Router;
use aodv_node::Node;
use mesh_base::{Addr, NoMemory};
use mesh_script::Peers;
use std::alloc::Global;
use std::marker::Model;
use std::mem;

/// The mesh grows until the first line that is neither blank nor a `self` or `peer` line.
#[derive(Drop)]
pub enum Stage {
    Joining(Peers),
    Running(Router),
}

/// The state of a run between two lines: its stage, and how many lines were read.
#[derive(Drop)]
pub struct Point {
    pub(crate) stage: Stage,
    lines: u64,
}

impl Model for Point {
    ghost use Rattle.mesh_router.specs.Routers.{RunState};
    ghost use Rattle.mesh_router.specs.Stages.{run_state_code, stage_of};

    ghost Value = { RunState };

    ghost coded = { run_state_code };

    ghost view = { λ p. record { stage = stage_of p.stage; lines = p.lines } };
}

impl Point {
    /// The state before the first line.
    pub fn new() -> Point
        ensures { result ≡ routers.opening_run_state }
    {
        Point {
            stage: Stage::Joining(Peers::new()),
            lines: 0,
        }
    }

    /// The mesh so far, with the node itself and its peers.
    pub fn peers(&self) -> &Peers
        ensures { result.now ≡ peers_in self.now.stage }
    {
        match &self.stage {
            Stage::Joining(peers) => peers,
            Stage::Running(router) => router.peers(),
        }
    }

    /// Whether the run has started: some line was neither blank nor a `self` or `peer` line.
    pub fn started(&self) -> bool
        ensures { result ≡ is_running self.now.stage }
    {
        match &self.stage {
            Stage::Joining(_) => false,
            Stage::Running(_) => true,
        }
    }

    /// How many lines were read.
    pub fn lines(&self) -> u64
        ensures { result ≡ self.now.lines }
    {
        self.lines
    }

    /// Counts a line.
    pub(crate) fn count_line(&mut self)
        requires { self.old.lines < most_lines }
        ensures { self.new ≡ counted_at self.old self.old.stage }
    {
        self.lines += 1;
    }

    /// The node itself joins the mesh.
    pub(crate) fn set_self(&mut self, a: Addr, first: u32)
        requires joining { is_running self.old.stage ≡ false }
        requires none { (peers_in self.old.stage).me ≡ None }
        requires absent { index_of (peers_in self.old.stage).mesh a.0 ≡ None }
        requires room { length (peers_in self.old.stage).mesh < MOST_NODES }
        requires first { 1 ≤ first }
        ensures { self.new ≡ record self.old {
          stage = routers.Joining (with_self (peers_in self.old.stage) a.0 first);
        } }
    {
        match &mut self.stage {
            Stage::Joining(peers) => peers.set_self(a, first),
            Stage::Running(_) => unreachable!(),
        }
    }

    /// A peer joins the mesh.
    pub(crate) fn add_peer(&mut self, a: Addr, port: u16)
        requires joining { is_running self.old.stage ≡ false }
        requires absent { index_of (peers_in self.old.stage).mesh a.0 ≡ None }
        requires free { at_port (peers_in self.old.stage) port ≡ None }
        requires room { length (peers_in self.old.stage).mesh < MOST_NODES }
        requires port { 1 ≤ port }
        ensures { self.new ≡ record self.old {
          stage = routers.Joining (with_peer (peers_in self.old.stage) a.0 port);
        } }
    {
        match &mut self.stage {
            Stage::Joining(peers) => peers.add_peer(a, port),
            Stage::Running(_) => unreachable!(),
        }
    }

    /// Starts the router, unless it runs already. An `Err` changes nothing.
    pub(crate) fn begin(&mut self, alloc: Global) -> Result<(), NoMemory>
        requires { is_some (peers_in self.old.stage).me ≡ true }
        ensures ok { OnOk result (self.new ≡ record self.old {
          stage = routers.Running (router_in self.old.stage);
        }) }
        ensures err { OnErr result (self.new ≡ self.old) }
    {
        let peers = match &mut self.stage {
            Stage::Joining(peers) => peers,
            Stage::Running(_) => return Ok(()),
        };
        let Some(me) = peers.me() else {
            unreachable!();
        };
        let node = Node::new(alloc, peers.mesh(), me)?;
        let peers = mem::replace(peers, Peers::new());
        self.stage = Stage::Running(Router::with(peers, node, me));
        Ok(())
    }
}
