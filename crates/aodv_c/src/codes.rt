//! The numbers that calls answer, and those in an outcome.
ghost use Rattle.std.specs.Prelude.{◌≡◌};
ghost use Rattle.aodv_c.specs.Codes.{full_code, new_code, hear_code, give_code, turn_code, send_code, ask_code, code_of, took_code, from_of, dest_of, cast_code, variant_of};

use aodv_router::{AskError, Casting, GiveError, HearError, NewError, SendError, Taken, TurnError};
use mesh_base::{Full, Kind, Variant};

/// The version of this interface: it changes whenever a call, a struct or a number does.
pub const VERSION: u32 = 1;

// ---- what a call answers

/// The call is done.
pub const DONE: u32 = 0;

/// The inbox is empty, or there is nothing to send or to ask for.
pub const IDLE: u32 = 1;

/// The mesh has no such address.
pub const STRANGER: u32 = 2;

/// The address is the router's own.
pub const OWN: u32 = 3;

/// The packet can't be read. It is taken from the inbox.
pub const MALFORMED: u32 = 4;

/// The packet names an address that the mesh doesn't have. It is taken from the inbox.
pub const NAMES_STRANGER: u32 = 5;

/// There isn't enough memory.
pub const NO_MEMORY: u32 = 6;

/// The handle holds nothing.
pub const HOLDS_NOTHING: u32 = 7;

/// The handle holds a router already.
pub const HOLDS_ONE: u32 = 8;

/// The body has no bytes, or more than 512.
pub const LENGTH: u32 = 9;

/// The first sequence number is 0.
pub const ZERO_NUMBER: u32 = 10;

/// There is no variant with this number.
pub const NO_VARIANT: u32 = 11;

/// An address is there twice.
pub const TWICE: u32 = 12;

/// There are more than 200 addresses.
pub const TOO_MANY: u32 = 13;

/// The router's own address isn't among them.
pub const NOT_THERE: u32 = 14;

/// A hop count would go past 255.
pub const FULL_HOPS: u32 = 15;

/// A sequence number would go past 4294967295.
pub const FULL_NUMBER: u32 = 16;

/// A request id would go past 4294967295.
pub const FULL_ID: u32 = 17;

/// The table has no entry for the address.
pub const NO_ENTRY: u32 = 18;

// ---- what was taken

/// Nothing: the outcome is that of a send or a request.
pub const TOOK_NOTHING: u32 = 0;

/// A datum for the router itself.
pub const TOOK_OWN: u32 = 1;

/// A datum that now waits for a route.
pub const TOOK_STORED: u32 = 2;

/// A neighbour's data packet.
pub const TOOK_DATA: u32 = 3;

/// A neighbour's route request.
pub const TOOK_REQUEST: u32 = 4;

/// A neighbour's route reply.
pub const TOOK_REPLY: u32 = 5;

/// A neighbour's route error.
pub const TOOK_ERROR: u32 = 6;

// ---- to whom a packet goes

/// There is no packet.
pub const CAST_NOTHING: u32 = 0;

/// To one neighbour.
pub const CAST_ONE: u32 = 1;

/// To some neighbours.
pub const CAST_MANY: u32 = 2;

/// To all neighbours.
pub const CAST_ALL: u32 = 3;

// ---- numbers of refusals

fn full_code(field: Full) -> u32
    ensures { result ≡ full_code field }
{
    match field {
        Full::Hops => FULL_HOPS,
        Full::Number => FULL_NUMBER,
        Full::Id => FULL_ID,
    }
}

pub(crate) fn new_code(why: NewError) -> u32
    ensures { result ≡ new_code why }
{
    match why {
        NewError::ZeroNumber => ZERO_NUMBER,
        NewError::Twice => TWICE,
        NewError::TooMany => TOO_MANY,
        NewError::NotThere => NOT_THERE,
        NewError::NoMemory => NO_MEMORY,
    }
}

pub(crate) fn hear_code(answer: Result<(), HearError>) -> u32
    ensures { result ≡ code_of hear_code answer }
{
    match answer {
        Ok(()) => DONE,
        Err(HearError::Stranger) => STRANGER,
        Err(HearError::Own) => OWN,
        Err(HearError::NoMemory) => NO_MEMORY,
    }
}

pub(crate) fn give_code(answer: Result<(), GiveError>) -> u32
    ensures { result ≡ code_of give_code answer }
{
    match answer {
        Ok(()) => DONE,
        Err(GiveError::Stranger) => STRANGER,
        Err(GiveError::Length) => LENGTH,
        Err(GiveError::NoMemory) => NO_MEMORY,
    }
}

pub(crate) fn turn_code(why: &TurnError) -> u32
    ensures { result ≡ turn_code why.now }
{
    match why {
        TurnError::Idle => IDLE,
        TurnError::Refused { .. } => MALFORMED,
        TurnError::Stranger { .. } => NAMES_STRANGER,
        TurnError::Full(field) => full_code(*field),
        TurnError::NoMemory => NO_MEMORY,
    }
}

pub(crate) fn send_code(why: &SendError) -> u32
    ensures { result ≡ send_code why.now }
{
    match why {
        SendError::Stranger => STRANGER,
        SendError::Idle => IDLE,
        SendError::Full(field) => full_code(*field),
    }
}

pub(crate) fn ask_code(why: &AskError) -> u32
    ensures { result ≡ ask_code why.now }
{
    match why {
        AskError::Stranger => STRANGER,
        AskError::Idle => IDLE,
        AskError::Full(field) => full_code(*field),
        AskError::NoMemory => NO_MEMORY,
    }
}

// ---- numbers in an outcome

pub(crate) fn took_code(took: Taken) -> u32
    ensures { result ≡ took_code took }
{
    match took {
        Taken::Nothing => TOOK_NOTHING,
        Taken::Own => TOOK_OWN,
        Taken::Stored(_) => TOOK_STORED,
        Taken::Heard { kind, .. } => match kind {
            Kind::Data => TOOK_DATA,
            Kind::Rreq => TOOK_REQUEST,
            Kind::Rrep => TOOK_REPLY,
            Kind::Rerr => TOOK_ERROR,
        },
    }
}

pub(crate) fn from_of(took: Taken) -> u32
    ensures { result ≡ from_of took }
{
    match took {
        Taken::Heard { from, .. } => from,
        Taken::Nothing | Taken::Own | Taken::Stored(_) => 0,
    }
}

pub(crate) fn dest_of(took: Taken) -> u32
    ensures { result ≡ dest_of took }
{
    match took {
        Taken::Stored(dest) => dest,
        Taken::Nothing | Taken::Own | Taken::Heard { .. } => 0,
    }
}

pub(crate) fn cast_code(cast: Casting) -> u32
    ensures { result ≡ cast_code cast }
{
    match cast {
        Casting::Nothing => CAST_NOTHING,
        Casting::One => CAST_ONE,
        Casting::Many => CAST_MANY,
        Casting::All => CAST_ALL,
    }
}

// ---- what a caller names

/// The variant with this number, if there is one.
pub(crate) fn variant_of(number: u32) -> Option<Variant>
    ensures { result ≡ variant_of number }
{
    match number {
        0 => Some(Variant::Base),
        1 => Some(Variant::Number),
        2 => Some(Variant::Reply),
        3 => Some(Variant::Error),
        _ => None,
    }
}
