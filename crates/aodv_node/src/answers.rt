//! What a node's calls answer.
use aodv_wire::WireError;
use mesh_base::{Addr, Effect, Full, NoMemory, Took};
use thiserror::Error;

/// What a turn did.
#[derive(Drop)]
pub struct TurnDone {
    /// What was taken from the inbox.
    pub took: Took,
    /// What the node did with it, besides making its new state.
    pub effect: Effect,
}

/// Why a turn did nothing, or nothing but take the item.
#[derive(Clone, Copy, Debug, PartialEq, Eq, Error)]
pub enum TurnError {
    /// The inbox is empty.
    #[error("nothing waits")]
    Idle,
    /// The bytes from that node encode no message. A turn takes them from the inbox.
    #[error("a packet that can't be read")]
    Refused { from: usize, why: WireError },
    /// The message from that node names an address outside the mesh; `who` is the first in the
    /// packet's order. A turn takes the packet from the inbox.
    #[error("a packet that names a stranger")]
    Stranger { from: usize, who: Addr },
    /// The turn would raise this counter past its field's greatest value.
    #[error("a counter is full")]
    Full(Full),
    /// There isn't enough memory.
    #[error("no memory")]
    NoMemory,
}

impl From<NoMemory> for TurnError {
    ghost use Rattle.std.specs.Prelude.{◌≡◌};
    ghost use Rattle.aodv_node.specs.declared.answers.TurnError.TheVariants as errors;

    ghost from_gives = { λ n e. e ≡ errors.NoMemory };

    fn from(_: NoMemory) -> TurnError {
        TurnError::NoMemory
    }
}

/// Why no stored datum is sent.
#[derive(Clone, Copy, Debug, PartialEq, Eq, Error)]
pub enum SendError {
    /// No datum waits for the destination, or there is no valid route to it.
    #[error("nothing to send")]
    Idle,
    /// The send would raise this counter past its field's greatest value.
    #[error("a counter is full")]
    Full(Full),
}

/// Why no request is made.
#[derive(Clone, Copy, Debug, PartialEq, Eq, Error)]
pub enum AskError {
    /// No datum waits for the destination, there is a valid route already, or a request was made
    /// already.
    #[error("nothing to ask for")]
    Idle,
    /// The request would raise this counter past its field's greatest value.
    #[error("a counter is full")]
    Full(Full),
    /// There isn't enough memory.
    #[error("no memory")]
    NoMemory,
}

impl From<NoMemory> for AskError {
    ghost use Rattle.std.specs.Prelude.{◌≡◌};
    ghost use Rattle.aodv_node.specs.declared.answers.AskError.TheVariants as errors;

    ghost from_gives = { λ n e. e ≡ errors.NoMemory };

    fn from(_: NoMemory) -> AskError {
        AskError::NoMemory
    }
}

/// Why parts that were kept don't make a node.
#[derive(Clone, Copy, Debug, PartialEq, Eq, Error)]
pub enum Unfit {
    /// The state isn't one that a node may have: an entry's number or hop count is wrong, its next
    /// hop isn't another node that has an entry, or a precursor is outside the mesh.
    #[error("a state that isn't sound")]
    Core,
    /// An item of the inbox names an index outside the mesh, or the node itself as its sender.
    #[error("an item that can't wait here")]
    Item,
}
