//! What a node does of its own accord: it takes a turn, sends or asks.
ghost use Rattle.std.specs.Prelude.{◌≡◌, ℕ, length, is_some, Option, Some, None};
ghost use Rattle.std.specs.List.{AllByRecursion};
ghost use Rattle.mesh_base.specs.Members.{NodeIds};
ghost use Rattle.mesh_base.specs.Meshes.{Nodes};
ghost use Rattle.mesh_base.specs.declared.events.Took.{Took as TookSeen};
ghost use Rattle.aodv_node.specs.Turned.{IsReadableItem};
ghost use Rattle.mesh_world.specs.Acts as acts;
ghost use Rattle.mesh_world.specs.Acts.{Act, IsFor, IsActed, act_result_of, done_of};

use aodv_node::{AskError, Node, SendError, TurnDone, TurnError};
use mesh_base::{Air, Done, Effect, Full, Mesh, NodeSet, Packet, Took};

/// Why nothing came of an act.
pub(crate) enum Unacted {
    /// It isn't enabled.
    Idle,
    /// It would raise this counter past its field's greatest value.
    Full(Full),
    /// There was not enough memory.
    NoMemory,
}

/// What was taken, and what the node did besides.
pub(crate) type Acted<T> = Result<(T, Effect), Unacted>;

/// What a node does of its own accord.
pub(crate) trait Acts: Copy {
    /// What is taken from the inbox.
    type Taken: Drop;

    /// The act.
    ghost act: { Self → Act };

    /// What was taken, if anything can be.
    ghost took: { Self.Taken → Option TookSeen };

    /// The node acts, with the nodes of `range` in range. The packet that is cast is left in `out`.
    fn of(
        self,
        node: &mut Node,
        mesh: &Mesh,
        range: &NodeSet,
        out: &mut Packet,
    ) -> Acted<Self::Taken>
        requires mesh { length mesh.now ≡ node.old.size }
        requires dest { IsFor (length mesh.now) (act self) }
        requires readable { AllByRecursion (IsReadableItem mesh.now) node.old.items }
        ensures { let new = node.new in
            IsActed took mesh.now range.now (act self) node.old result new out.new.items };

    /// What is answered of an act.
    fn answer(taken: Self::Taken, effect: Effect, air: Air) -> Done
        ensures { result ≡ done_of (took taken) effect air };

    /// Whether the act is enabled. This is asked only after memory was short.
    fn is_enabled(self, node: &Node) -> bool
        ensures { (mesh : Nodes) (range : NodeIds) →
            result ≡ is_some (act_result_of mesh range node.now (act self)) };
}

/// The node takes the front of its inbox.
#[derive(Clone, Copy)]
pub(crate) struct Turn;

/// The node sends the first datum that waits for this destination.
#[derive(Clone, Copy)]
pub(crate) struct Send(pub usize);

/// The node asks for a route to this destination.
#[derive(Clone, Copy)]
pub(crate) struct Ask(pub usize);

impl Acts for Turn {
    type Taken = Took;

    ghost act = { λ _. acts.Turn };

    ghost took = { Some };

    #[inline(always)]
    fn of(self, node: &mut Node, mesh: &Mesh, range: &NodeSet, out: &mut Packet) -> Acted<Took> {
        match node.turn(mesh, range, out) {
            Ok(TurnDone { took, effect }) => Ok((took, effect)),
            Err(TurnError::Idle) => Err(Unacted::Idle),
            Err(TurnError::Full(field)) => Err(Unacted::Full(field)),
            Err(TurnError::NoMemory) => Err(Unacted::NoMemory),
            Err(TurnError::Refused { .. }) => unreachable!(),
            Err(TurnError::Stranger { .. }) => unreachable!(),
        }
    }

    #[inline(always)]
    fn answer(took: Took, effect: Effect, air: Air) -> Done {
        Done::Taken { took, effect, air }
    }

    fn is_enabled(self, node: &Node) -> bool {
        !node.inbox().is_empty()
    }
}

impl Acts for Send {
    type Taken = ();

    ghost act = { λ s. acts.Send s.0 };

    ghost took = { λ _. None };

    #[inline(always)]
    fn of(self, node: &mut Node, mesh: &Mesh, range: &NodeSet, out: &mut Packet) -> Acted<()> {
        match node.send(mesh, range, self.0, out) {
            Ok(effect) => Ok(((), effect)),
            Err(SendError::Idle) => Err(Unacted::Idle),
            Err(SendError::Full(field)) => Err(Unacted::Full(field)),
        }
    }

    #[inline(always)]
    fn answer(_: (), effect: Effect, air: Air) -> Done {
        Done::Sent { effect, air }
    }

    fn is_enabled(self, node: &Node) -> bool {
        node.sendable().has(self.0)
    }
}

impl Acts for Ask {
    type Taken = ();

    ghost act = { λ s. acts.Ask s.0 };

    ghost took = { λ _. None };

    #[inline(always)]
    fn of(self, node: &mut Node, mesh: &Mesh, _range: &NodeSet, out: &mut Packet) -> Acted<()> {
        match node.ask(mesh, self.0, out) {
            Ok(effect) => Ok(((), effect)),
            Err(AskError::Idle) => Err(Unacted::Idle),
            Err(AskError::Full(field)) => Err(Unacted::Full(field)),
            Err(AskError::NoMemory) => Err(Unacted::NoMemory),
        }
    }

    #[inline(always)]
    fn answer(_: (), effect: Effect, air: Air) -> Done {
        Done::Sent { effect, air }
    }

    fn is_enabled(self, node: &Node) -> bool {
        node.askable().has(self.0)
    }
}
