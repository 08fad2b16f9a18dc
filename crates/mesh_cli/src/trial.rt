//! The run of a made schedule, line by line as each is made.
ghost use Rattle.std.specs.Prelude.{◌≡◌, ◌≢◌, ◌<◌, ◌≤◌, length, IsErrOf};
ghost use Rattle.mesh_base.specs.Bounds.{most_lines_before_run, most_steps_before_run};
ghost use Rattle.mesh_base.specs.declared.limits.TheConstants.{LONGEST_INPUT};
ghost use Rattle.mesh_text.specs.Text.{text_on, text_of_input};
ghost use Rattle.mesh_make.specs.Making.{IsMaking, HasCome, still_to_come};
ghost use Rattle.mesh_run.specs.declared.say.Say.TheVariants.{Last};
ghost use Rattle.mesh_shell.specs.Causes.{HasFaultCause};
ghost use Rattle.mesh_run.specs.Causes.{HasStatusCause};
ghost use Rattle.mesh_run.specs.Codes.{status_of};
ghost use Rattle.mesh_run.specs.Outputs.{part, IsOutput};
ghost use Rattle.mesh_cli.specs.Words.{IsPlan};
ghost use Rattle.mesh_cli.specs.Commands.{made_by};

use crate::words::Plan;
use mesh_base::{LineBuf, Variant};
use mesh_io::Sink;
use mesh_make::Maker;
use mesh_run::{Point, Say, Status, do_value, finish};
use mesh_shell::Fault;
use mesh_text::Verdict;
use mesh_world::World;
use std::alloc::Global;
use std::mem::forget;

// Does the lines that are still to be made, and writes the last line of their text.
fn do_made<O: Sink>(
    alloc: Global,
    at: &mut Point<World>,
    maker: &mut Maker,
    out: &mut O,
) -> Result<Verdict, Fault>
    requires making { IsMaking maker.old }
    requires come { HasCome maker.old at.old }
    requires short { length (still_to_come maker.old) ≤ LONGEST_INPUT }
    requires few { at.old.lines < most_lines_before_run }
    requires steps { at.old.steps < most_steps_before_run }
    ensures written { IsOutput (O.held out.old) (O.held out.new)
        (part Last (text_on at.old (still_to_come maker.old))) (status_of result) }
    ensures write { HasFaultCause Fault.WriteFault (O.faults out.old) (O.faults out.new) result }
    ensures read { ¬ IsErrOf result Fault.ReadFault }
{
    let mut text = LineBuf::new();
    'lines: while !maker.is_done() {
        let line = maker.next_line(&mut text);
        match do_value(alloc, at, line, out) {
            Ok(None) => {}
            Ok(Some(verdict)) => return Ok(verdict),
            Err(fault) => return Err(fault),
        }
    }
    Ok(finish(at, Say::Last, out)?)
}

/// Runs a made schedule, with all nodes running this variant of the protocol, and writes the last
/// line of its text. The lines are run as values, and none is written or read.
#[inline(never)]
pub fn trial<O: Sink>(alloc: Global, variant: Variant, plan: Plan, out: &mut O) -> Status
    requires { IsPlan plan }
    ensures written { IsOutput (O.held out.old) (O.held out.new)
        (part Last (text_of_input variant (made_by plan))) result }
    ensures write { HasStatusCause Status.WriteFault (O.faults out.old) (O.faults out.new) result }
    ensures read { result ≢ Status.ReadFault }
    ensures words { result ≢ Status.Usage }
{
    let mut at: Point<World> = Point::with(variant);
    let mut maker = Maker::new(plan.seed, plan.nodes, plan.steps);
    let answer = do_made(alloc, &mut at, &mut maker, out);
    forget(at);
    Status::of(answer)
}
