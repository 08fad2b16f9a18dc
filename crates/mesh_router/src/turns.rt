//! The turns of a router.
ghost use Rattle.std.specs.Prelude.{◌≡◌, ◌<◌, ◌≤◌, ◌+◌, ◌*◌, ◌++◌, length, codes, is_some, true, OnOk, IsErrOf, Some};
ghost use Rattle.mesh_io.specs.Cause.{HasCause};
ghost use Rattle.mesh_io.specs.Puts.{Puts};
ghost use Rattle.mesh_router.specs.Turns.{refusal_words, stranger_words, drop_line, next_turn, turns_of};
ghost use Rattle.mesh_router.specs.Outputs.{HasCauses};
ghost use Rattle.mesh_router.specs.Seen.{HasCounts, IsGrown, most_counted, most_counted_before_line};
ghost use Rattle.mesh_router.specs.Runs.{IsTurnRun, IsStepRun};
ghost use Rattle.mesh_router.specs.Short.{IsTurnShort, AreTurnsShort};

use crate::casts::{push_node, tell_turn};
use crate::router::Router;
use crate::stop::{Scratch, Stop};
use aodv_node::TurnError;
use aodv_wire::WireError;
use mesh_base::{
    Addr, LINE_CAPACITY, LineBuf, MOST_NODES, Mesh, push_number, push_text, write_dotted,
};
use mesh_io::{PutFault, Sink, put_all};
use mesh_link::Link;
use mesh_script::NUMBER_WIDTH;

// ---- what can't be read

// No text that says why bytes encode no message is longer than this.
const REFUSAL_WIDTH: usize = b"unknown type ".len() + NUMBER_WIDTH;

// Appends why bytes encode no message.
#[tactic(auto, using(std::proofs::lemmas::List::append_assoc))]
fn push_refusal(out: &mut LineBuf, why: WireError)
    requires { length out.old.items + REFUSAL_WIDTH ≤ LINE_CAPACITY }
    ensures text { out.new.items ≡ out.old.items ++ refusal_words why }
    ensures length { length out.new.items ≤ length out.old.items + REFUSAL_WIDTH }
{
    match why {
        WireError::Short => push_text(out, b"short"),
        WireError::UnknownType(kind) => {
            push_text(out, b"unknown type ");
            push_number(out, u64::from(kind));
        }
        WireError::WrongLength => push_text(out, b"wrong length"),
        WireError::OutsideProfile => push_text(out, b"outside profile"),
        WireError::ZeroNumber => push_text(out, b"zero number"),
        WireError::NoDestinations => push_text(out, b"no destinations"),
        WireError::Repeated(a) => {
            push_text(out, b"repeated ");
            write_dotted(a, out);
        }
        WireError::BadData => push_text(out, b"bad data"),
    }
}

#[tactic(auto, using(std::proofs::lemmas::List::append_assoc))]
fn push_malformed(out: &mut LineBuf, mesh: &Mesh, from: usize, why: WireError)
    requires { from < length mesh.now }
    ensures { out.new.items ≡ drop_line mesh.now from (refusal_words why) }
{
    out.clear();
    push_node(out, b"  drop ", mesh, from);
    push_refusal(out, why);
    out.push(b'\n');
}

// Writes that a packet from this node can't be read.
fn put_malformed<O: Sink>(
    mesh: &Mesh,
    from: usize,
    why: WireError,
    buf: &mut LineBuf,
    out: &mut O,
) -> Result<(), PutFault>
    requires { from < length mesh.now }
    ensures text { Puts (O.held out.old) (O.held out.new)
        (drop_line mesh.now from (refusal_words why)) result }
    ensures cause { HasCause (O.faults out.old) (O.faults out.new) result }
{
    push_malformed(buf, mesh, from, why);
    put_all(out, buf.as_slice())
}

#[tactic(auto, using(std::proofs::lemmas::List::append_assoc))]
fn push_stranger(out: &mut LineBuf, mesh: &Mesh, from: usize, who: Addr)
    requires { from < length mesh.now }
    ensures { out.new.items ≡ drop_line mesh.now from (stranger_words who) }
{
    out.clear();
    push_node(out, b"  drop ", mesh, from);
    push_text(out, b"stranger ");
    write_dotted(who, out);
    out.push(b'\n');
}

// Writes that a packet from this node names a stranger.
fn put_stranger<O: Sink>(
    mesh: &Mesh,
    from: usize,
    who: Addr,
    buf: &mut LineBuf,
    out: &mut O,
) -> Result<(), PutFault>
    requires { from < length mesh.now }
    ensures text { Puts (O.held out.old) (O.held out.new)
        (drop_line mesh.now from (stranger_words who)) result }
    ensures cause { HasCause (O.faults out.old) (O.faults out.new) result }
{
    push_stranger(buf, mesh, from, who);
    put_all(out, buf.as_slice())
}

// ---- turns

impl Router {
    // Does the next turn, and returns false if the inbox is empty.
    fn turn<O: Sink, L: Link>(
        &mut self,
        scratch: &mut Scratch,
        out: &mut O,
        link: &mut L,
    ) -> Result<bool, Stop>
        requires open { is_some (L.port link.old) ≡ true }
        requires few { HasCounts most_counted self.old }
        ensures turn { IsTurnRun (next_turn self.old) self.old (O.held out.old, L.sent link.old)
            (O.held out.new, L.sent link.new) self.new result }
        ensures memory { IsErrOf result Stop.NoMemory → IsTurnShort self.old }
        ensures grown { OnOk result (IsGrown MOST_NODES self.old self.new) }
        ensures peers { self.new.peers ≡ self.old.peers }
        ensures causes { HasCauses (O.faults out.old) (O.faults out.new)
            (L.faults link.old) (L.faults link.new) result }
        ensures port { L.port link.new ≡ L.port link.old }
        ensures arrived { L.arrived link.new ≡ L.arrived link.old }
    {
        // These calls say that the node is in order, and that its mesh has distinct addresses.
        let _number = self.node.sn();
        let _nodes = self.peers.mesh().len();
        let Some(me) = self.peers.me() else {
            unreachable!();
        };
        match self
            .node
            .turn(self.peers.mesh(), &self.range, &mut scratch.packet)
        {
            Ok(done) => {
                self.sent += tell_turn(&self.peers, &self.range, me, done, scratch, out, link)?;
                Ok(true)
            }
            Err(TurnError::Idle) => {
                put_all(out, b"  idle\n")?;
                Ok(false)
            }
            Err(TurnError::Refused { from, why }) => {
                self.dropped += 1;
                put_malformed(self.peers.mesh(), from, why, &mut scratch.line, out)?;
                Ok(true)
            }
            Err(TurnError::Stranger { from, who }) => {
                self.dropped += 1;
                put_stranger(self.peers.mesh(), from, who, &mut scratch.line, out)?;
                Ok(true)
            }
            Err(TurnError::Full(field)) => Err(Stop::Full(field)),
            Err(TurnError::NoMemory) => Err(Stop::NoMemory),
        }
    }
}

impl Router {
    // Does up to `count` turns, and stops at the first that finds the inbox empty.
    pub(crate) fn turns<O: Sink, L: Link>(
        &mut self,
        count: u32,
        scratch: &mut Scratch,
        out: &mut O,
        link: &mut L,
    ) -> Result<(), Stop>
        requires open { is_some (L.port link.old) ≡ true }
        requires few { HasCounts most_counted_before_line self.old }
        ensures turns { IsStepRun (turns_of count self.old) (O.held out.old, L.sent link.old)
            (O.held out.new, L.sent link.new) self.new result }
        ensures memory { IsErrOf result Stop.NoMemory → AreTurnsShort count self.old }
        ensures grown { OnOk result (IsGrown (MOST_NODES * count) self.old self.new) }
        ensures peers { self.new.peers ≡ self.old.peers }
        ensures causes { HasCauses (O.faults out.old) (O.faults out.new)
            (L.faults link.old) (L.faults link.new) result }
        ensures port { L.port link.new ≡ L.port link.old }
        ensures arrived { L.arrived link.new ≡ L.arrived link.old }
    {
        for _i in 0..count {
            if !self.turn(scratch, out, link)? {
                return Ok(());
            }
        }
        Ok(())
    }
}
