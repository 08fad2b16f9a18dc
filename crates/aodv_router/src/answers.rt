//! Why a router's call is refused.
use aodv_wire::WireError;
use mesh_base::Full;
use thiserror::Error;

/// The mesh has no such address.
#[derive(Clone, Copy, Debug, PartialEq, Eq, Error)]
#[error("the mesh has no such address")]
pub struct Stranger;

/// Why no router is made.
#[derive(Clone, Copy, Debug, PartialEq, Eq, Error)]
pub enum NewError {
    /// The first sequence number is 0, which means none.
    #[error("the first number is 0")]
    ZeroNumber,
    /// An address is there twice.
    #[error("an address is there twice")]
    Twice,
    /// There are more than 200 addresses.
    #[error("there are more than 200 addresses")]
    TooMany,
    /// The router's own address isn't among them.
    #[error("the router's own address is missing")]
    NotThere,
    /// There isn't enough memory.
    #[error("no memory")]
    NoMemory,
}

/// Why a packet isn't heard.
#[derive(Clone, Copy, Debug, PartialEq, Eq, Error)]
pub enum HearError {
    /// The mesh has no such address.
    #[error("the mesh has no such address")]
    Stranger,
    /// The address is the router's own.
    #[error("a router doesn't hear itself")]
    Own,
    /// There isn't enough memory.
    #[error("no memory")]
    NoMemory,
}

/// Why a datum isn't taken.
#[derive(Clone, Copy, Debug, PartialEq, Eq, Error)]
pub enum GiveError {
    /// The mesh has no such address.
    #[error("the mesh has no such address")]
    Stranger,
    /// The body is empty, or longer than 512 bytes.
    #[error("a datum has 1 to 512 bytes")]
    Length,
    /// There isn't enough memory.
    #[error("no memory")]
    NoMemory,
}

/// Why a turn did nothing, or nothing but take the item.
#[derive(Clone, Copy, Debug, PartialEq, Eq, Error)]
pub enum TurnError {
    /// The inbox is empty.
    #[error("nothing waits")]
    Idle,
    /// The bytes from that address encode no message. They are taken from the inbox.
    #[error("a packet that can't be read")]
    Refused { from: u32, why: WireError },
    /// The message from that address names an address outside the mesh; `who` is the first in the
    /// packet's order. The packet is taken from the inbox.
    #[error("a packet that names a stranger")]
    Stranger { from: u32, who: u32 },
    /// The turn would raise this counter past its field's greatest value.
    #[error("a counter is full")]
    Full(Full),
    /// There isn't enough memory.
    #[error("no memory")]
    NoMemory,
}

/// Why no stored datum is sent.
#[derive(Clone, Copy, Debug, PartialEq, Eq, Error)]
pub enum SendError {
    /// The mesh has no such address.
    #[error("the mesh has no such address")]
    Stranger,
    /// No datum waits for the address, or there is no valid route to it.
    #[error("nothing to send")]
    Idle,
    /// The send would raise this counter past its field's greatest value.
    #[error("a counter is full")]
    Full(Full),
}

/// Why no request is made.
#[derive(Clone, Copy, Debug, PartialEq, Eq, Error)]
pub enum AskError {
    /// The mesh has no such address.
    #[error("the mesh has no such address")]
    Stranger,
    /// No datum waits for the address, there is a valid route already, or a request was made
    /// already.
    #[error("nothing to ask for")]
    Idle,
    /// The request would raise this counter past its field's greatest value.
    #[error("a counter is full")]
    Full(Full),
    /// There isn't enough memory.
    #[error("no memory")]
    NoMemory,
}
