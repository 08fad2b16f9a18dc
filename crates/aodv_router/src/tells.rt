//! What a node has done, in addresses.
ghost use Rattle.std.specs.Prelude.{◌≡◌, ◌≤◌, length, IfOk};
ghost use Rattle.std.specs.Option.{option_map};
ghost use Rattle.mesh_base.specs.Meshes.{addr_at};
ghost use Rattle.mesh_base.specs.declared.limits.TheConstants.{LONGEST_DATUM};
ghost use Rattle.aodv_router.specs.Outcomes.{taken_in, body_of, datum_in, casting_of, named_by, IsTakenDatum, TellsTurn, TellsAct};
ghost use Rattle.aodv_router.specs.Steps.{turn_error, TellsTurnAnswer, TellsSendAnswer, TellsAskAnswer};
ghost use Rattle.aodv_router.specs.Rows.{TellsEntry};

use crate::answers::{AskError, SendError, TurnError};
use crate::indices::{addr, addrs};
use crate::outcome::{Addrs, Body, Casting, Outcome, Row, Taken};
use aodv_model::Entry;
use aodv_node::TurnDone;
use aodv_wire::{Message, read};
use arrayvec::ArrayVec;
use mesh_base::{Cast, Effect, Mesh, Packet, Took};

// ---- what was taken

fn taken(mesh: &Mesh, took: &Took) -> Taken
    ensures { result ≡ taken_in mesh.now took.now }
{
    match took {
        Took::Own { .. } => Taken::Own,
        Took::Stored { dest } => Taken::Stored(addr(mesh, *dest)),
        Took::Heard { from, kind, .. } => Taken::Heard {
            from: addr(mesh, *from),
            kind: *kind,
        },
    }
}

// A copy of the bytes of a datum.
fn copy_of(bytes: &[u8]) -> Body
    requires { length bytes.now ≤ LONGEST_DATUM }
    ensures { result.items ≡ bytes.now }
{
    let mut body: Body = ArrayVec::new();
    for b in bytes {
        body.push(*b);
    }
    body
}

// The datum that a packet carries.
fn datum_in(bytes: &[u8]) -> Body
    ensures { result.items ≡ datum_in bytes.now }
{
    match read(bytes) {
        Ok(Message::Parcel(datum)) => copy_of(datum.body()),
        _ => ArrayVec::new(),
    }
}

// The datum that was taken and doesn't wait now.
fn body_of(took: &Took) -> Body
    requires { IsTakenDatum took.now }
    ensures { result.items ≡ body_of took.now }
{
    match took {
        Took::Own { body } => copy_of(body.as_slice()),
        Took::Stored { .. } => ArrayVec::new(),
        Took::Heard { bytes, .. } => datum_in(bytes.as_slice()),
    }
}

// ---- what was done

fn casting_of(cast: &Cast) -> Casting
    ensures { result ≡ casting_of cast.now }
{
    match cast {
        Cast::Nothing => Casting::Nothing,
        Cast::One(_) => Casting::One,
        Cast::Many(_) => Casting::Many,
        Cast::All => Casting::All,
    }
}

// The addresses that a cast names.
fn named_by(mesh: &Mesh, cast: &Cast) -> Addrs
    ensures { result.items ≡ named_by mesh.now cast.now }
{
    match cast {
        Cast::Nothing => ArrayVec::new(),
        Cast::One(to) => {
            let mut named: Addrs = ArrayVec::new();
            named.push(addr(mesh, *to));
            named
        }
        Cast::Many(set) => addrs(mesh, set),
        Cast::All => ArrayVec::new(),
    }
}

// The next hop that wasn't reached.
fn broken_in(mesh: &Mesh, broken: Option<usize>) -> Option<u32>
    ensures { result ≡ option_map (λ y. addr_at mesh.now y) broken }
{
    match broken {
        Some(y) => Some(addr(mesh, y)),
        None => None,
    }
}

// The outcome of a turn.
fn turn_outcome(mesh: &Mesh, done: &TurnDone, packet: Packet) -> Outcome
    requires { IsTakenDatum done.now.took }
    ensures { TellsTurn mesh.now done.now packet.items result }
{
    Outcome {
        took: taken(mesh, &done.took),
        delivered: done.effect.deliver,
        lost: done.effect.lost,
        broken: broken_in(mesh, done.effect.broken),
        cast: casting_of(&done.effect.cast),
        to: named_by(mesh, &done.effect.cast),
        packet,
        body: body_of(&done.took),
    }
}

// The outcome of a send or a request.
fn act_outcome(mesh: &Mesh, effect: &Effect, packet: Packet) -> Outcome
    ensures { TellsAct mesh.now effect.now packet.items result }
{
    Outcome {
        took: Taken::Nothing,
        delivered: effect.deliver,
        lost: effect.lost,
        broken: broken_in(mesh, effect.broken),
        cast: casting_of(&effect.cast),
        to: named_by(mesh, &effect.cast),
        packet,
        body: ArrayVec::new(),
    }
}

// ---- answers

// Why a turn was refused.
fn turn_error(mesh: &Mesh, why: aodv_node::TurnError) -> TurnError
    ensures { result ≡ turn_error mesh.now why }
{
    match why {
        aodv_node::TurnError::Idle => TurnError::Idle,
        aodv_node::TurnError::Refused { from, why } => TurnError::Refused {
            from: addr(mesh, from),
            why,
        },
        aodv_node::TurnError::Stranger { from, who } => TurnError::Stranger {
            from: addr(mesh, from),
            who: who.0,
        },
        aodv_node::TurnError::Full(field) => TurnError::Full(field),
        aodv_node::TurnError::NoMemory => TurnError::NoMemory,
    }
}

/// What a turn answers, in addresses.
pub(crate) fn tell_turn(
    mesh: &Mesh,
    answer: &Result<TurnDone, aodv_node::TurnError>,
    packet: Packet,
) -> Result<Outcome, TurnError>
    requires { IfOk answer.now (λ d. IsTakenDatum d.took) }
    ensures { TellsTurnAnswer mesh.now answer.now packet.items result }
{
    match answer {
        Ok(done) => Ok(turn_outcome(mesh, done, packet)),
        Err(why) => Err(turn_error(mesh, *why)),
    }
}

/// What a send answers, in addresses.
pub(crate) fn tell_send(
    mesh: &Mesh,
    answer: Result<Effect, aodv_node::SendError>,
    packet: Packet,
) -> Result<Outcome, SendError>
    ensures { TellsSendAnswer mesh.now answer packet.items result }
{
    match answer {
        Ok(effect) => Ok(act_outcome(mesh, &effect, packet)),
        Err(aodv_node::SendError::Idle) => Err(SendError::Idle),
        Err(aodv_node::SendError::Full(field)) => Err(SendError::Full(field)),
    }
}

/// What a request answers, in addresses.
pub(crate) fn tell_ask(
    mesh: &Mesh,
    answer: Result<Effect, aodv_node::AskError>,
    packet: Packet,
) -> Result<Outcome, AskError>
    ensures { TellsAskAnswer mesh.now answer packet.items result }
{
    match answer {
        Ok(effect) => Ok(act_outcome(mesh, &effect, packet)),
        Err(aodv_node::AskError::Idle) => Err(AskError::Idle),
        Err(aodv_node::AskError::Full(field)) => Err(AskError::Full(field)),
        Err(aodv_node::AskError::NoMemory) => Err(AskError::NoMemory),
    }
}

// ---- entries

/// An entry of the table, in addresses.
pub(crate) fn tell_entry(mesh: &Mesh, e: &Entry) -> Row
    ensures { TellsEntry mesh.now e.now result }
{
    Row {
        dsn: e.dsn,
        dsk: e.dsk,
        flag: e.flag,
        hops: e.hops,
        next: addr(mesh, e.next),
        pre: addrs(mesh, &e.pre),
    }
}
