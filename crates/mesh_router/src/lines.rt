//! A line of a router's script.
ghost use Rattle.std.specs.Prelude.{◌≡◌, ◌<◌, ◌+◌, is_some, true, OnOk, OnErr, Option, List};
ghost use Rattle.mesh_base.specs.Bounds.{most_lines};
ghost use Rattle.mesh_link.specs.Datagrams.{Datagram};
ghost use Rattle.mesh_script.specs.NodeSeen.{accepted_of, IsAllowed, IsPrintable};
ghost use Rattle.mesh_router.specs.Routers.{peers_in, router_in, is_running, Running};
ghost use Rattle.mesh_router.specs.Lines as lines;
ghost use Rattle.mesh_router.specs.Lines.{outcome_of_line, refused_words, words_at, step_of};
ghost use Rattle.mesh_router.specs.Outputs.{HasCauses, HasSinkCause};
ghost use Rattle.mesh_router.specs.Seen.{HasCounts, IsGrown, most_grown, most_counted_before_line};
ghost use Rattle.mesh_router.specs.Runs.{IsStepRun, IsPollLine, IsLineRun, IsCommand};

use crate::point::{Point, Stage};
use crate::steps::put_line;
use crate::stop::{Scratch, Stop};
use mesh_base::{Addr, LineBuf};
use mesh_io::Sink;
use mesh_link::Link;
use mesh_script::NodeLine;
use std::alloc::Global;

impl Point {
    // The running router does a command.
    fn step<O: Sink, L: Link>(
        &mut self,
        alloc: Global,
        line: &NodeLine<'_>,
        scratch: &mut Scratch,
        out: &mut O,
        link: &mut L,
    ) -> Result<(), Stop>
        requires running { is_running self.old.stage ≡ true }
        requires printable { IsPrintable (peers_in self.old.stage) line.now }
        requires open { is_some (L.port link.old) ≡ true }
        requires few { HasCounts most_counted_before_line (router_in self.old.stage) }
        ensures step { let stage = self.old.stage in let l = accepted_of line.now in
            IsStepRun (step_of (router_in stage) (words_at stage l) l)
            (O.held out.old, L.sent link.old) (O.held out.new, L.sent link.new)
            (router_in self.new.stage) result }
        ensures stage { self.new
            ≡ record self.old { stage = Running (router_in self.new.stage) } }
        ensures grown { OnOk result
            (IsGrown most_grown (router_in self.old.stage) (router_in self.new.stage)) }
        ensures peers { peers_in self.new.stage ≡ peers_in self.old.stage }
        ensures causes { HasCauses (O.faults out.old) (O.faults out.new)
            (L.faults link.old) (L.faults link.new) result }
        ensures port { L.port link.new ≡ L.port link.old }
        ensures arrived { L.arrived link.new ≡ L.arrived link.old }
    {
        match &mut self.stage {
            Stage::Running(router) => router.step(alloc, line, scratch, out, link),
            Stage::Joining(_) => unreachable!(),
        }
    }

    // The running router receives datagrams.
    fn poll<O: Sink, L: Link>(
        &mut self,
        alloc: Global,
        line: &NodeLine<'_>,
        count: u32,
        scratch: &mut Scratch,
        out: &mut O,
        link: &mut L,
    ) -> Result<(), Stop>
        requires running { is_running self.old.stage ≡ true }
        requires printable { IsPrintable (peers_in self.old.stage) line.now }
        requires open { is_some (L.port link.old) ≡ true }
        requires few { HasCounts most_counted_before_line (router_in self.old.stage) }
        ensures polls { let stage = self.old.stage in
            let words = words_at stage (accepted_of line.now) in
            IsPollLine count words (router_in stage) (L.arrived link.old) (L.arrived link.new)
            (O.held out.old, L.sent link.old) (O.held out.new, L.sent link.new)
            (router_in self.new.stage) result }
        ensures stage { self.new
            ≡ record self.old { stage = Running (router_in self.new.stage) } }
        ensures grown { OnOk result
            (IsGrown count (router_in self.old.stage) (router_in self.new.stage)) }
        ensures peers { peers_in self.new.stage ≡ peers_in self.old.stage }
        ensures causes { HasCauses (O.faults out.old) (O.faults out.new)
            (L.faults link.old) (L.faults link.new) result }
        ensures port { L.port link.new ≡ L.port link.old }
    {
        match &mut self.stage {
            Stage::Running(router) => router.poll_below(alloc, line, count, scratch, out, link),
            Stage::Joining(_) => unreachable!(),
        }
    }
}

// The node itself joins the mesh.
fn do_self<O: Sink>(
    at: &mut Point,
    line: &NodeLine<'_>,
    addr: Addr,
    first: u32,
    buf: &mut LineBuf,
    out: &mut O,
) -> Result<(), Stop>
    requires allowed { IsAllowed (peers_in at.old.stage) (is_running at.old.stage) line.now }
    requires line { line.now ≡ NodeLine.Own addr first }
    requires lines { at.old.lines < most_lines }
    ensures line { (arrived : Option (List Datagram)) (sent : Option (List Datagram)) →
        let l = accepted_of line.now in
        IsLineRun (outcome_of_line at.old l) (refused_words at.old.stage l) at.new arrived arrived
        (O.held out.old, sent) (O.held out.new, sent) result }
    ensures grown { OnOk result
        (IsGrown 0 (router_in at.old.stage) (router_in at.new.stage)) }
    ensures lines { OnOk result (at.new.lines ≡ at.old.lines + 1) }
    ensures peers { OnErr result (peers_in at.new.stage ≡ peers_in at.old.stage) }
    ensures cause { HasSinkCause (O.faults out.old) (O.faults out.new) result }
{
    put_line(line, at.peers(), buf, out)?;
    at.set_self(addr, first);
    at.count_line();
    Ok(())
}

// A peer joins the mesh.
fn do_peer<O: Sink>(
    at: &mut Point,
    line: &NodeLine<'_>,
    addr: Addr,
    port: u16,
    buf: &mut LineBuf,
    out: &mut O,
) -> Result<(), Stop>
    requires allowed { IsAllowed (peers_in at.old.stage) (is_running at.old.stage) line.now }
    requires line { line.now ≡ NodeLine.Peer addr port }
    requires lines { at.old.lines < most_lines }
    ensures line { (arrived : Option (List Datagram)) (sent : Option (List Datagram)) →
        let l = accepted_of line.now in
        IsLineRun (outcome_of_line at.old l) (refused_words at.old.stage l) at.new arrived arrived
        (O.held out.old, sent) (O.held out.new, sent) result }
    ensures grown { OnOk result
        (IsGrown 0 (router_in at.old.stage) (router_in at.new.stage)) }
    ensures lines { OnOk result (at.new.lines ≡ at.old.lines + 1) }
    ensures peers { OnErr result (peers_in at.new.stage ≡ peers_in at.old.stage) }
    ensures cause { HasSinkCause (O.faults out.old) (O.faults out.new) result }
{
    put_line(line, at.peers(), buf, out)?;
    at.add_peer(addr, port);
    at.count_line();
    Ok(())
}

// The router starts, unless it runs already, and does a command.
fn do_step<O: Sink, L: Link>(
    alloc: Global,
    at: &mut Point,
    line: &NodeLine<'_>,
    scratch: &mut Scratch,
    out: &mut O,
    link: &mut L,
) -> Result<(), Stop>
    requires command { IsCommand (accepted_of line.now) }
    requires named { is_some (peers_in at.old.stage).me ≡ true }
    requires printable { IsPrintable (peers_in at.old.stage) line.now }
    requires lines { at.old.lines < most_lines }
    requires open { is_some (L.port link.old) ≡ true }
    requires few { HasCounts most_counted_before_line (router_in at.old.stage) }
    ensures line { let l = accepted_of line.now in
        IsLineRun (outcome_of_line at.old l) (refused_words at.old.stage l) at.new
        (L.arrived link.old) (L.arrived link.new) (O.held out.old, L.sent link.old)
        (O.held out.new, L.sent link.new) result }
    ensures grown { OnOk result
        (IsGrown most_grown (router_in at.old.stage) (router_in at.new.stage)) }
    ensures lines { OnOk result (at.new.lines ≡ at.old.lines + 1) }
    ensures peers { OnErr result (peers_in at.new.stage ≡ peers_in at.old.stage) }
    ensures causes { HasCauses (O.faults out.old) (O.faults out.new)
        (L.faults link.old) (L.faults link.new) result }
    ensures port { L.port link.new ≡ L.port link.old }
{
    at.begin(alloc)?;
    at.step(alloc, line, scratch, out, link)?;
    at.count_line();
    Ok(())
}

// The router starts, unless it runs already, and receives datagrams.
fn do_poll<O: Sink, L: Link>(
    alloc: Global,
    at: &mut Point,
    line: &NodeLine<'_>,
    count: u32,
    scratch: &mut Scratch,
    out: &mut O,
    link: &mut L,
) -> Result<(), Stop>
    requires line { line.now ≡ NodeLine.Poll count }
    requires named { is_some (peers_in at.old.stage).me ≡ true }
    requires printable { IsPrintable (peers_in at.old.stage) line.now }
    requires lines { at.old.lines < most_lines }
    requires open { is_some (L.port link.old) ≡ true }
    requires few { HasCounts most_counted_before_line (router_in at.old.stage) }
    ensures line { let l = accepted_of line.now in
        IsLineRun (outcome_of_line at.old l) (refused_words at.old.stage l) at.new
        (L.arrived link.old) (L.arrived link.new) (O.held out.old, L.sent link.old)
        (O.held out.new, L.sent link.new) result }
    ensures grown { OnOk result
        (IsGrown most_grown (router_in at.old.stage) (router_in at.new.stage)) }
    ensures lines { OnOk result (at.new.lines ≡ at.old.lines + 1) }
    ensures peers { OnErr result (peers_in at.new.stage ≡ peers_in at.old.stage) }
    ensures causes { HasCauses (O.faults out.old) (O.faults out.new)
        (L.faults link.old) (L.faults link.new) result }
    ensures port { L.port link.new ≡ L.port link.old }
{
    at.begin(alloc)?;
    at.poll(alloc, line, count, scratch, out, link)?;
    at.count_line();
    Ok(())
}

/// Does an allowed line, and reports what comes of it.
#[tactic(auto, using(crate::proofs::Acting::causes_of_sink, crate::proofs::Running::grown_zero))]
pub fn do_line<O: Sink, L: Link>(
    alloc: Global,
    at: &mut Point,
    line: &NodeLine<'_>,
    scratch: &mut Scratch,
    out: &mut O,
    link: &mut L,
) -> Result<(), Stop>
    requires allowed { IsAllowed (peers_in at.old.stage) (is_running at.old.stage) line.now }
    requires lines { at.old.lines < most_lines }
    requires open { is_some (L.port link.old) ≡ true }
    requires few { HasCounts most_counted_before_line (router_in at.old.stage) }
    ensures line { let l = accepted_of line.now in
        IsLineRun (outcome_of_line at.old l) (refused_words at.old.stage l) at.new
        (L.arrived link.old) (L.arrived link.new) (O.held out.old, L.sent link.old)
        (O.held out.new, L.sent link.new) result }
    ensures grown { OnOk result
        (IsGrown most_grown (router_in at.old.stage) (router_in at.new.stage)) }
    ensures lines { OnOk result (at.new.lines ≡ at.old.lines + 1) }
    ensures peers { OnErr result (peers_in at.new.stage ≡ peers_in at.old.stage) }
    ensures causes { HasCauses (O.faults out.old) (O.faults out.new)
        (L.faults link.old) (L.faults link.new) result }
    ensures port { L.port link.new ≡ L.port link.old }
{
    match *line {
        NodeLine::Blank => {
            at.count_line();
            Ok(())
        }
        NodeLine::Own { addr, first } => { do_self(at, line, addr, first, &mut scratch.line, out) }
        NodeLine::Peer { addr, port } => { do_peer(at, line, addr, port, &mut scratch.line, out) }
        NodeLine::Poll { count } => do_poll(alloc, at, line, count, scratch, out, link),
        NodeLine::Up { .. } => do_step(alloc, at, line, scratch, out, link),
        NodeLine::Down { .. } => do_step(alloc, at, line, scratch, out, link),
        NodeLine::Give { .. } => do_step(alloc, at, line, scratch, out, link),
        NodeLine::Turn { .. } => do_step(alloc, at, line, scratch, out, link),
        NodeLine::Send { .. } => do_step(alloc, at, line, scratch, out, link),
        NodeLine::Ask { .. } => do_step(alloc, at, line, scratch, out, link),
        NodeLine::Show => do_step(alloc, at, line, scratch, out, link),
    }
}
