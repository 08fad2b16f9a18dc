//! The run of a router's script.
ghost use Rattle.std.specs.Prelude.{◌≡◌, ◌≢◌, ◌<◌, ◌≤◌, ◌+◌, ◌∷◌, [], List, is_some, true, OnOk, IfErr, IfSome, Err};
ghost use Rattle.std.specs.Io.KnownBytes.{IsAtEnd};
ghost use Rattle.mesh_base.specs.Bounds.{most_lines_before_run};
ghost use Rattle.mesh_shell.specs.Pieces.{Piece, Whole};
ghost use Rattle.mesh_io.specs.Cause.{Rose};
ghost use Rattle.mesh_io.specs.NextLines.{schedule_limits};
ghost use Rattle.mesh_router.specs.Routers.{router_in, opening_run_state};
ghost use Rattle.mesh_router.specs.Lines.{outcome_of_piece, why_past};
ghost use Rattle.mesh_router.specs.Text.{run_from};
ghost use Rattle.mesh_router.specs.Seen.{HasCounts, IsGrown, most_grown, most_counted_before_line};
ghost use Rattle.mesh_router.specs.Runs.{IsLineDone};
ghost use Rattle.mesh_router.specs.Output.{IsTold, IsScriptRun};

use crate::ends::{finish, put_full, refuse};
use crate::lines::do_line;
use crate::point::Point;
use crate::status::NodeStatus;
use crate::stop::{Scratch, Stop};
use mesh_grammar::BadWhy;
use mesh_io::{Cutter, Limits, SCHEDULE_CAPACITY, Sink, Source};
use mesh_link::Link;
use mesh_script::parse_node_line;
use mesh_shell::{Limit, LineReader, Runner, run_lines};
use std::alloc::Global;

// Does one line that isn't too long. An `Err` is the answer of a run that ends at this line.
fn one<O: Sink, L: Link>(
    alloc: Global,
    at: &mut Point,
    bytes: &[u8],
    scratch: &mut Scratch,
    out: &mut O,
    link: &mut L,
) -> Result<(), NodeStatus>
    requires lines { at.old.lines < most_lines_before_run }
    requires open { is_some (L.port link.old) ≡ true }
    requires few { HasCounts most_counted_before_line (router_in at.old.stage) }
    ensures goes { OnOk result (IsLineDone (outcome_of_piece at.old (Whole bytes.now)) at.new
        (L.arrived link.old) (L.arrived link.new) (O.held out.old, L.sent link.old)
        (O.held out.new, L.sent link.new)) }
    ensures stops { IfErr result (λ s. (pieces : List Piece) →
        IsTold (run_from at.old (Whole bytes.now ∷ pieces))
        (L.arrived link.old) (L.arrived link.new) (O.held out.old, L.sent link.old)
        (O.held out.new, L.sent link.new) s) }
    ensures grown { OnOk result
        (IsGrown most_grown (router_in at.old.stage) (router_in at.new.stage)) }
    ensures lines { OnOk result (at.new.lines ≡ at.old.lines + 1) }
    ensures sink { O.faults out.old ≤ O.faults out.new }
    ensures links { L.faults link.old ≤ L.faults link.new }
    ensures write { result ≡ Err NodeStatus.WriteFault
        → Rose (O.faults out.old) (O.faults out.new) }
    ensures send { result ≡ Err NodeStatus.LinkFault
        → Rose (L.faults link.old) (L.faults link.new) }
    ensures no_write { result ≢ Err NodeStatus.WriteFault
        → O.faults out.new ≡ O.faults out.old }
    ensures no_send { result ≢ Err NodeStatus.LinkFault
        → L.faults link.new ≡ L.faults link.old }
    ensures done { result ≢ Err NodeStatus.Done }
    ensures read { result ≢ Err NodeStatus.ReadFault }
    ensures words { result ≢ Err NodeStatus.Usage }
    ensures port { L.port link.new ≡ L.port link.old }
{
    let number = at.lines() + 1;
    match parse_node_line(bytes, at.peers(), at.started()) {
        Err(fault) => Err(refuse(at, BadWhy::Fault(fault), out)),
        Ok(line) => match do_line(alloc, at, &line, scratch, out, link) {
            Ok(()) => Ok(()),
            Err(Stop::Full(field)) => {
                match put_full(number, at.peers(), &line, field, &mut scratch.line, out) {
                    Ok(()) => Err(NodeStatus::Full { line: number }),
                    Err(_) => Err(NodeStatus::WriteFault),
                }
            }
            Err(Stop::WriteFault) => Err(NodeStatus::WriteFault),
            Err(Stop::LinkFault) => Err(NodeStatus::LinkFault),
            Err(Stop::NoMemory) => Err(NodeStatus::NoMemory),
        },
    }
}

// The reason for which a line that goes past a limit is refused.
fn why_past(limit: Limit) -> BadWhy
    ensures { result ≡ why_past limit }
{
    match limit {
        Limit::Line => BadWhy::TooLong,
        Limit::Input => BadWhy::TooMuch,
    }
}

/// The lines of a script, run from a point over a link. What a line writes and sends is put
/// immediately, in one order.
pub(crate) struct Routing<'a, O, L> {
    alloc: Global,
    at: &'a mut Point,
    scratch: &'a mut Scratch,
    out: &'a mut O,
    link: &'a mut L,
}

impl<O: Sink, L: Link> Runner for Routing<'_, O, L> {
    ghost use Rattle.std.specs.Prelude.{⊤};
    ghost use Rattle.mesh_base.specs.declared.limits.TheConstants.{LONGEST_LINE};
    ghost use Rattle.mesh_router.specs.Routing.{HasLed, HasStopped, HasFinished, IsCut, HasRoomFor};
    ghost use Rattle.mesh_router.specs.RoutingLaws.{stays_there, joins_both, leaves_room};

    type Answer = NodeStatus;

    ghost leads = { HasLed O.Sink L.Link };

    ghost stops = { HasStopped O.Sink L.Link };

    ghost ends = { HasFinished O.Sink L.Link };

    ghost breaks = { λ old new answer. ⊥ };

    ghost cuts = { IsCut };

    ghost has_handed_on = { λ r. ⊤ };

    ghost has_room = { HasRoomFor L.Link };

    ghost longest = { LONGEST_LINE };

    // All is put immediately, so nothing is gathered.
    #[inline]
    fn wait(&mut self) -> Option<NodeStatus> {
        None
    }

    #[inline]
    fn line(&mut self, line: &[u8]) -> Option<NodeStatus> {
        match one(self.alloc, self.at, line, self.scratch, self.out, self.link) {
            Ok(()) => None,
            Err(status) => Some(status),
        }
    }

    fn past(&mut self, limit: Limit) -> NodeStatus {
        refuse(self.at, why_past(limit), self.out)
    }

    fn end(&mut self) -> NodeStatus {
        finish(self.at, &mut self.scratch.line, self.out)
    }

    #[inline]
    fn cut(&mut self) -> NodeStatus {
        NodeStatus::ReadFault
    }

    ghost stays = { stays_there _ _ };

    ghost joins = { joins_both _ _ };

    ghost leaves = { leaves_room _ _ };
}

// Runs a script from its first line.
fn route<R: LineReader, O: Sink, L: Link>(
    routing: &mut Routing<'_, O, L>,
    lines: &mut R,
) -> NodeStatus
    requires opening { routing.old.at.now ≡ opening_run_state }
    requires most { R.limits lines.old ≡ schedule_limits }
    requires pending { R.pending lines.old ≡ [] }
    requires given { R.given lines.old ≡ 0 }
    requires open { is_some (L.port routing.old.link.now) ≡ true }
    ensures same { R.name lines.new ≡ R.name lines.old }
    ensures same_out { routing.new.out.ghost_name ≡ routing.old.out.ghost_name }
    ensures same_link { routing.new.link.ghost_name ≡ routing.old.link.ghost_name }
    ensures known { IfSome (R.left lines.old) (λ script.
        IsScriptRun script (L.arrived routing.old.link.now)
        (O.held routing.old.out.now, L.sent routing.old.link.now)
        (O.held routing.new.out.now, L.sent routing.new.link.now) result) }
    ensures end { result ≡ NodeStatus.Done → IsAtEnd (R.left lines.new) }
    ensures read { result ≡ NodeStatus.ReadFault → Rose (R.faults lines.old) (R.faults lines.new) }
    ensures write { result ≡ NodeStatus.WriteFault
        → Rose (O.faults routing.old.out.now) (O.faults routing.new.out.now) }
    ensures send { result ≡ NodeStatus.LinkFault
        → Rose (L.faults routing.old.link.now) (L.faults routing.new.link.now) }
    ensures no_read { result ≢ NodeStatus.ReadFault → R.faults lines.new ≡ R.faults lines.old }
    ensures no_write { result ≢ NodeStatus.WriteFault
        → O.faults routing.new.out.now ≡ O.faults routing.old.out.now }
    ensures no_send { result ≢ NodeStatus.LinkFault
        → L.faults routing.new.link.now ≡ L.faults routing.old.link.now }
    ensures sink { O.faults routing.old.out.now ≤ O.faults routing.new.out.now }
    ensures links { L.faults routing.old.link.now ≤ L.faults routing.new.link.now }
    ensures port { L.port routing.new.link.now ≡ L.port routing.old.link.now }
    ensures words { result ≢ NodeStatus.Usage }
{
    run_lines(routing, lines)
}

/// Runs a router's script over an open link, from its source to the sink and the link. Each line of
/// text is put as soon as it is known, and each datagram is sent after the line that says so.
pub fn run_script<I: Source, O: Sink, L: Link>(
    alloc: Global,
    input: &mut I,
    out: &mut O,
    link: &mut L,
) -> NodeStatus
    requires open { is_some (L.port link.old) ≡ true }

    // What is written and sent is the log of the script with what the link's receive calls found,
    // and the answer is the script's verdict. After a fault, or lack of memory, a prefix of that
    // log is written and sent: a datagram is sent only once all text before it is written.
    ensures known { IfSome (I.left input.old) (λ script. IsScriptRun script (L.arrived link.old)
        (O.held out.old, L.sent link.old) (O.held out.new, L.sent link.new) result) }

    // `Done` only if the script was read to its end.
    ensures end { result ≡ NodeStatus.Done → IsAtEnd (I.left input.new) }

    // A fault is answered only if the source, the sink or the link has failed in this call.
    ensures read { result ≡ NodeStatus.ReadFault → Rose (I.faults input.old) (I.faults input.new) }
    ensures write { result ≡ NodeStatus.WriteFault → Rose (O.faults out.old) (O.faults out.new) }
    ensures send { result ≡ NodeStatus.LinkFault
        → Rose (L.faults link.old) (L.faults link.new) }

    // No other answer comes if one of them has failed.
    ensures no_read { result ≢ NodeStatus.ReadFault → I.faults input.new ≡ I.faults input.old }
    ensures no_write { result ≢ NodeStatus.WriteFault → O.faults out.new ≡ O.faults out.old }
    ensures no_send { result ≢ NodeStatus.LinkFault → L.faults link.new ≡ L.faults link.old }

    // The sink's and the link's counts of faults don't fall, and the link stays open at its port.
    ensures sink { O.faults out.old ≤ O.faults out.new }
    ensures links { L.faults link.old ≤ L.faults link.new }
    ensures port { L.port link.new ≡ L.port link.old }
    ensures words { result ≢ NodeStatus.Usage }
{
    let mut at = Point::new();
    let mut scratch = Scratch::new();
    let mut lines: Cutter<'_, I, SCHEDULE_CAPACITY> = Cutter::new(input, Limits::of_schedule());
    let mut routing = Routing {
        alloc,
        at: &mut at,
        scratch: &mut scratch,
        out,
        link,
    };
    let status = route(&mut routing, &mut lines);
    // This says that `out` and `link` are as the run has left them.
    let Routing {
        alloc: _,
        at: _,
        scratch: _,
        out: _,
        link: _,
    } = routing;
    // This says that `input` is the source as the lines have left it.
    let _source = lines.give_back();
    status
}
