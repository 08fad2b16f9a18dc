//! What each command but `self` and `peer` makes a router do.
ghost use Rattle.std.specs.Prelude.{◌≡◌, ◌<◌, ◌≤◌, ◌+◌, ◌*◌, ◌++◌, not, length, codes, is_some, true, OnOk, IfOk, IfErr, IfSome, IsErrOf, Option, List};
ghost use Rattle.std.specs.FinSet as sets;
ghost use Rattle.aodv_model.specs.Handlers as model;
ghost use Rattle.aodv_model.specs.Fullness.{send_full, ask_full};
ghost use Rattle.aodv_node.specs.Discovered.{IsAskShort};
ghost use Rattle.mesh_grammar.specs.Written.{line as ended};
ghost use Rattle.mesh_io.specs.Cause.{HasCause};
ghost use Rattle.mesh_io.specs.Puts.{Puts};
ghost use Rattle.mesh_script.specs.NodeLines.{words_of};
ghost use Rattle.mesh_script.specs.NodeSeen.{accepted_of, IsPrintable};
ghost use Rattle.mesh_router.specs.Turns.{act_of, idle_line, log_before, turns_of};
ghost use Rattle.mesh_router.specs.Lines.{range_outcome, give_outcome, show_outcome, step_of};
ghost use Rattle.mesh_link.specs.Datagrams.{Datagram};
ghost use Rattle.aodv_model.specs.Soundness.{IsDatum};
ghost use Rattle.mesh_meaning.specs.Answers.{IsCastWritten};
ghost use Rattle.mesh_router.specs.Logs.{text_log};
ghost use Rattle.mesh_router.specs.Peers.{IsPeer, ArePeers, receivers_of, act_log};
ghost use Rattle.mesh_router.specs.Outputs.{Says, HasCauses, HasSinkCause, IsFault};
ghost use Rattle.mesh_router.specs.Seen.{HasCounts, IsGrown, most_grown, most_counted, most_counted_before_line};
ghost use Rattle.mesh_router.specs.Runs.{IsStepRun, IsPollLine};
ghost use Rattle.mesh_router.specs.Short.{AreTurnsShort, IsStepShort, IsPollShort};

use crate::casts::tell_effect;
use crate::router::Router;
use crate::stop::{Scratch, Stop};
use aodv_node::{AskError, SendError};
use mesh_base::{Bytes, Effect, LineBuf, MOST_NODES, NodeSet, push_text};
use mesh_io::{PutFault, Sink, put_all};
use mesh_link::Link;
use mesh_script::{NodeLine, Peers, print_node_line};
use mesh_show::put_node;
use std::alloc::Global;

// ---- lines

/// Writes a line in canonical form.
pub(crate) fn put_line<O: Sink>(
    line: &NodeLine<'_>,
    peers: &Peers,
    buf: &mut LineBuf,
    out: &mut O,
) -> Result<(), PutFault>
    requires { IsPrintable peers.now line.now }
    ensures text { Puts (O.held out.old) (O.held out.new)
        (ended (words_of peers.now.mesh (accepted_of line.now))) result }
    ensures cause { HasCause (O.faults out.old) (O.faults out.new) result }
{
    print_node_line(line, peers, buf);
    buf.push(b'\n');
    put_all(out, buf.as_slice())
}

// Writes a line, and below it that the line is idle.
fn put_idle<O: Sink>(
    line: &NodeLine<'_>,
    peers: &Peers,
    buf: &mut LineBuf,
    out: &mut O,
) -> Result<(), PutFault>
    requires { IsPrintable peers.now line.now }
    ensures text { Puts (O.held out.old) (O.held out.new)
        (ended (words_of peers.now.mesh (accepted_of line.now)) ++ idle_line) result }
    ensures cause { HasCause (O.faults out.old) (O.faults out.new) result }
{
    print_node_line(line, peers, buf);
    push_text(buf, b"\n  idle\n");
    put_all(out, buf.as_slice())
}

// Writes a line, and below it what the node did of its own accord; sends the packet that it cast,
// and returns to how many peers.
fn tell_act<O: Sink, L: Link>(
    line: &NodeLine<'_>,
    peers: &Peers,
    range: &NodeSet,
    me: usize,
    effect: Effect,
    scratch: &mut Scratch,
    out: &mut O,
    link: &mut L,
) -> Result<u64, Stop>
    requires printable { IsPrintable peers.now line.now }
    requires me { me < length peers.now.mesh }
    requires range { ArePeers peers.now range.now }
    requires broken { IfSome effect.broken (λ y. y < length peers.now.mesh) }
    requires cast { IsCastWritten peers.now.mesh effect.cast scratch.old.packet.items }
    requires open { is_some (L.port link.old) ≡ true }
    ensures says { Says (O.held out.old, L.sent link.old) (O.held out.new, L.sent link.new)
        (act_log peers.now range.now me (accepted_of line.now) effect scratch.old.packet.items)
        result }
    ensures count { IfOk result (λ n.
        n ≡ length (receivers_of peers.now range.now effect.cast scratch.old.packet.items)) }
    ensures few { IfOk result (λ n. n ≤ MOST_NODES) }
    ensures causes { HasCauses (O.faults out.old) (O.faults out.new)
        (L.faults link.old) (L.faults link.new) result }
    ensures fault { IfErr result IsFault }
    ensures port { L.port link.new ≡ L.port link.old }
    ensures arrived { L.arrived link.new ≡ L.arrived link.old }
{
    put_line(line, peers, &mut scratch.line, out)?;
    let buf = &mut scratch.line;
    tell_effect(
        peers,
        range,
        me,
        None,
        &effect,
        &scratch.packet,
        buf,
        out,
        link,
    )
}

// ---- steps

impl Router {
    // The node sends the first datum that waits for `dest`.
    fn send<O: Sink, L: Link>(
        &mut self,
        line: &NodeLine<'_>,
        dest: usize,
        scratch: &mut Scratch,
        out: &mut O,
        link: &mut L,
    ) -> Result<(), Stop>
        requires dest { dest < length self.old.peers.mesh }
        requires printable { IsPrintable self.old.peers line.now }
        requires open { is_some (L.port link.old) ≡ true }
        requires few { HasCounts most_counted self.old }
        ensures step { let r = self.old in
            IsStepRun (act_of r (words_of r.peers.mesh (accepted_of line.now))
            (model.may_send r.core dest) (send_full r.core r.range dest)
            (model.send r.core r.range dest)) (O.held out.old, L.sent link.old)
            (O.held out.new, L.sent link.new) self.new result }
        ensures memory { ¬ IsErrOf result Stop.NoMemory }
        ensures grown { OnOk result (IsGrown MOST_NODES self.old self.new) }
        ensures peers { self.new.peers ≡ self.old.peers }
        ensures causes { HasCauses (O.faults out.old) (O.faults out.new)
            (L.faults link.old) (L.faults link.new) result }
        ensures port { L.port link.new ≡ L.port link.old }
        ensures arrived { L.arrived link.new ≡ L.arrived link.old }
    {
        // What is read of a node is in order, and its mesh has distinct addresses.
        let _number = self.node.sn();
        let _nodes = self.peers.mesh().len();
        let Some(me) = self.peers.me() else {
            unreachable!();
        };
        match self
            .node
            .send(self.peers.mesh(), &self.range, dest, &mut scratch.packet)
        {
            Ok(effect) => {
                let peers = &self.peers;
                self.sent += tell_act(line, peers, &self.range, me, effect, scratch, out, link)?;
            }
            Err(SendError::Idle) => put_idle(line, &self.peers, &mut scratch.line, out)?,
            Err(SendError::Full(field)) => return Err(Stop::Full(field)),
        }
        Ok(())
    }

    // The node asks for a route to `dest`.
    fn ask<O: Sink, L: Link>(
        &mut self,
        line: &NodeLine<'_>,
        dest: usize,
        scratch: &mut Scratch,
        out: &mut O,
        link: &mut L,
    ) -> Result<(), Stop>
        requires dest { dest < length self.old.peers.mesh }
        requires printable { IsPrintable self.old.peers line.now }
        requires open { is_some (L.port link.old) ≡ true }
        requires few { HasCounts most_counted self.old }
        ensures step { let r = self.old in
            IsStepRun (act_of r (words_of r.peers.mesh (accepted_of line.now))
            (model.may_ask r.core dest) (ask_full r.core) (model.ask r.core dest))
            (O.held out.old, L.sent link.old) (O.held out.new, L.sent link.new) self.new result }
        ensures memory { IsErrOf result Stop.NoMemory → IsAskShort self.old.core dest }
        ensures grown { OnOk result (IsGrown MOST_NODES self.old self.new) }
        ensures peers { self.new.peers ≡ self.old.peers }
        ensures causes { HasCauses (O.faults out.old) (O.faults out.new)
            (L.faults link.old) (L.faults link.new) result }
        ensures port { L.port link.new ≡ L.port link.old }
        ensures arrived { L.arrived link.new ≡ L.arrived link.old }
    {
        // What is read of a node is in order, and its mesh has distinct addresses.
        let _number = self.node.sn();
        let _nodes = self.peers.mesh().len();
        let Some(me) = self.peers.me() else {
            unreachable!();
        };
        match self.node.ask(self.peers.mesh(), dest, &mut scratch.packet) {
            Ok(effect) => {
                let peers = &self.peers;
                self.sent += tell_act(line, peers, &self.range, me, effect, scratch, out, link)?;
            }
            Err(AskError::Idle) => put_idle(line, &self.peers, &mut scratch.line, out)?,
            Err(AskError::Full(field)) => return Err(Stop::Full(field)),
            Err(AskError::NoMemory) => return Err(Stop::NoMemory),
        }
        Ok(())
    }

    // The peer comes into range.
    fn up<O: Sink>(
        &mut self,
        line: &NodeLine<'_>,
        node: usize,
        buf: &mut LineBuf,
        out: &mut O,
    ) -> Result<(), Stop>
        requires node { IsPeer self.old.peers node }
        requires printable { IsPrintable self.old.peers line.now }
        ensures step { (sent : Option (List Datagram)) → let r = self.old in
            IsStepRun (range_outcome r (words_of r.peers.mesh (accepted_of line.now))
            (not (sets.contains r.range node)) (sets.insert r.range node))
            (O.held out.old, sent) (O.held out.new, sent) self.new result }
        ensures memory { ¬ IsErrOf result Stop.NoMemory }
        ensures grown { OnOk result (IsGrown 0 self.old self.new) }
        ensures peers { self.new.peers ≡ self.old.peers }
        ensures cause { HasSinkCause (O.faults out.old) (O.faults out.new) result }
    {
        // There are at most 200 nodes.
        let _nodes = self.peers.mesh().len();
        if self.range.has(node) {
            put_idle(line, &self.peers, buf, out)?;
            return Ok(());
        }
        self.range.add(node);
        put_line(line, &self.peers, buf, out)?;
        Ok(())
    }

    // The peer leaves the range.
    fn down<O: Sink>(
        &mut self,
        line: &NodeLine<'_>,
        node: usize,
        buf: &mut LineBuf,
        out: &mut O,
    ) -> Result<(), Stop>
        requires printable { IsPrintable self.old.peers line.now }
        ensures step { (sent : Option (List Datagram)) → let r = self.old in
            IsStepRun (range_outcome r (words_of r.peers.mesh (accepted_of line.now))
            (sets.contains r.range node) (sets.remove r.range node))
            (O.held out.old, sent) (O.held out.new, sent) self.new result }
        ensures memory { ¬ IsErrOf result Stop.NoMemory }
        ensures grown { OnOk result (IsGrown 0 self.old self.new) }
        ensures peers { self.new.peers ≡ self.old.peers }
        ensures cause { HasSinkCause (O.faults out.old) (O.faults out.new) result }
    {
        if !self.range.has(node) {
            put_idle(line, &self.peers, buf, out)?;
            return Ok(());
        }
        self.range.remove(node);
        put_line(line, &self.peers, buf, out)?;
        Ok(())
    }

    // The node is given a datum for `dest`.
    fn give<O: Sink>(
        &mut self,
        alloc: Global,
        line: &NodeLine<'_>,
        dest: usize,
        body: &[u8],
        buf: &mut LineBuf,
        out: &mut O,
    ) -> Result<(), Stop>
        requires dest { dest < length self.old.peers.mesh }
        requires datum { IsDatum body.now }
        requires printable { IsPrintable self.old.peers line.now }
        ensures step { (sent : Option (List Datagram)) → let r = self.old in
            IsStepRun (give_outcome r (words_of r.peers.mesh (accepted_of line.now)) dest body.now)
            (O.held out.old, sent) (O.held out.new, sent) self.new result }
        ensures grown { OnOk result (IsGrown 0 self.old self.new) }
        ensures peers { self.new.peers ≡ self.old.peers }
        ensures cause { HasSinkCause (O.faults out.old) (O.faults out.new) result }
    {
        let copied = Bytes::copy_of(alloc, body)?;
        self.node.make_room()?;
        self.node.give(dest, copied);
        put_line(line, &self.peers, buf, out)?;
        Ok(())
    }

    // Shows the node.
    fn show<O: Sink>(&self, line: &NodeLine<'_>, buf: &mut LineBuf, out: &mut O) -> Result<(), Stop>
        requires printable { IsPrintable self.now.peers line.now }
        ensures step { (sent : Option (List Datagram)) → let r = self.now in
            IsStepRun (show_outcome r (words_of r.peers.mesh (accepted_of line.now)))
            (O.held out.old, sent) (O.held out.new, sent) self.now result }
        ensures memory { ¬ IsErrOf result Stop.NoMemory }
        ensures cause { HasSinkCause (O.faults out.old) (O.faults out.new) result }
    {
        put_line(line, &self.peers, buf, out)?;
        put_node(self.peers.mesh(), &self.node, out)?;
        Ok(())
    }

    // Does up to `count` turns, below their line.
    fn turns_below<O: Sink, L: Link>(
        &mut self,
        line: &NodeLine<'_>,
        count: u32,
        scratch: &mut Scratch,
        out: &mut O,
        link: &mut L,
    ) -> Result<(), Stop>
        requires printable { IsPrintable self.old.peers line.now }
        requires open { is_some (L.port link.old) ≡ true }
        requires few { HasCounts most_counted_before_line self.old }
        ensures step { let r = self.old in
            let words = words_of r.peers.mesh (accepted_of line.now) in
            IsStepRun (log_before (text_log (ended words)) (turns_of count r))
            (O.held out.old, L.sent link.old) (O.held out.new, L.sent link.new) self.new result }
        ensures memory { IsErrOf result Stop.NoMemory → AreTurnsShort count self.old }
        ensures grown { OnOk result (IsGrown (MOST_NODES * count) self.old self.new) }
        ensures peers { self.new.peers ≡ self.old.peers }
        ensures causes { HasCauses (O.faults out.old) (O.faults out.new)
            (L.faults link.old) (L.faults link.new) result }
        ensures port { L.port link.new ≡ L.port link.old }
        ensures arrived { L.arrived link.new ≡ L.arrived link.old }
    {
        put_line(line, &self.peers, &mut scratch.line, out)?;
        self.turns(count, scratch, out, link)
    }

    /// Does a command of the script, and reports what comes of it. A line that adds to the mesh, a
    /// `poll` line and a blank line do nothing here.
    #[tactic(auto, using(crate::proofs::Acting::causes_of_sink), unfolding(crate::specs::Lines::step_of))]
    pub fn step<O: Sink, L: Link>(
        &mut self,
        alloc: Global,
        line: &NodeLine<'_>,
        scratch: &mut Scratch,
        out: &mut O,
        link: &mut L,
    ) -> Result<(), Stop>
        requires printable { IsPrintable self.old.peers line.now }
        requires open { is_some (L.port link.old) ≡ true }
        requires few { HasCounts most_counted_before_line self.old }
        ensures step { let r = self.old in let l = accepted_of line.now in
            IsStepRun (step_of r (words_of r.peers.mesh l) l) (O.held out.old, L.sent link.old)
            (O.held out.new, L.sent link.new) self.new result }

        // Memory runs out only if the command may need some.
        ensures memory { IsErrOf result Stop.NoMemory
            → IsStepShort self.old (accepted_of line.now) }

        ensures grown { OnOk result (IsGrown most_grown self.old self.new) }
        ensures peers { self.new.peers ≡ self.old.peers }
        ensures causes { HasCauses (O.faults out.old) (O.faults out.new)
            (L.faults link.old) (L.faults link.new) result }
        ensures port { L.port link.new ≡ L.port link.old }
        ensures arrived { L.arrived link.new ≡ L.arrived link.old }
    {
        match *line {
            NodeLine::Up { node } => self.up(line, node, &mut scratch.line, out),
            NodeLine::Down { node } => self.down(line, node, &mut scratch.line, out),
            NodeLine::Give { dest, body } => {
                self.give(alloc, line, dest, body, &mut scratch.line, out)
            }
            NodeLine::Turn { count } => self.turns_below(line, count, scratch, out, link),
            NodeLine::Send { dest } => self.send(line, dest, scratch, out, link),
            NodeLine::Ask { dest } => self.ask(line, dest, scratch, out, link),
            NodeLine::Show => self.show(line, &mut scratch.line, out),
            NodeLine::Blank => Ok(()),
            NodeLine::Own { .. } => Ok(()),
            NodeLine::Peer { .. } => Ok(()),
            NodeLine::Poll { .. } => Ok(()),
        }
    }

    /// Receives up to `count` datagrams, below their line.
    pub fn poll_below<O: Sink, L: Link>(
        &mut self,
        alloc: Global,
        line: &NodeLine<'_>,
        count: u32,
        scratch: &mut Scratch,
        out: &mut O,
        link: &mut L,
    ) -> Result<(), Stop>
        requires printable { IsPrintable self.old.peers line.now }
        requires open { is_some (L.port link.old) ≡ true }
        requires few { HasCounts most_counted_before_line self.old }
        ensures polls { let words = words_of self.old.peers.mesh (accepted_of line.now) in
            IsPollLine count words self.old (L.arrived link.old) (L.arrived link.new)
            (O.held out.old, L.sent link.old) (O.held out.new, L.sent link.new)
            self.new result }

        // Memory runs out only if a peer's datagram was received.
        ensures memory { IsErrOf result Stop.NoMemory
            → IsPollShort self.old.peers (L.arrived link.old) (L.arrived link.new) }

        ensures grown { OnOk result (IsGrown count self.old self.new) }
        ensures peers { self.new.peers ≡ self.old.peers }
        ensures causes { HasCauses (O.faults out.old) (O.faults out.new)
            (L.faults link.old) (L.faults link.new) result }
        ensures port { L.port link.new ≡ L.port link.old }
    {
        put_line(line, &self.peers, &mut scratch.line, out)?;
        self.polls(alloc, count, scratch, out, link)
    }
}
