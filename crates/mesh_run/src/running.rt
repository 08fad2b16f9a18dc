//! The run of a schedule as a script.
ghost use Rattle.std.specs.Prelude.{◌≡◌};

use crate::ends::{finish, refuse, settle, why_past};
use crate::lines::one;
use crate::point::Point;
use crate::say::Say;
use mesh_io::Sink;
use mesh_shell::{Fault, Limit, Script};
use mesh_text::Verdict;
use mesh_world::Steps;
use std::alloc::Global;

/// The run of a schedule: the state to which it has come, and how much of its text is written.
#[derive(Drop)]
pub struct Running<S: Steps> {
    pub alloc: Global,
    pub at: Point<S>,
    pub say: Say,
}

impl<S: Steps> Script for Running<S> {
    ghost use Rattle.std.proofs.Common.{arith};
    ghost use Rattle.mesh_base.specs.declared.limits.TheConstants.{LONGEST_LINE};
    ghost use Rattle.mesh_run.specs.RunStates.{IsSafe};
    ghost use Rattle.mesh_run.specs.Room.{HasRoomFor};
    ghost use Rattle.mesh_run.specs.Running.{running, CanRun};
    ghost use Rattle.mesh_text.specs.declared.verdict.Verdict.TheVariants as verdicts;

    type Verdict = Verdict;

    ghost fold = { running };

    ghost leads = { CanRun };

    ghost has_room = { λ r. HasRoomFor r.at };

    ghost longest = { LONGEST_LINE };

    ghost is_sound = { λ r. IsSafe r.at };

    ghost is_final = { λ v. v ≡ verdicts.Finished };

    fn begin<O: Sink>(&mut self, _: &mut O) -> Result<(), Fault> {
        Ok(())
    }

    #[inline]
    fn line<O: Sink>(&mut self, line: &[u8], out: &mut O) -> Result<Option<Verdict>, Fault> {
        let did = one(self.alloc, &mut self.at, line, self.say.says_lines(), out);
        settle(&mut self.at, did, out)
    }

    fn past<O: Sink>(&mut self, limit: Limit, out: &mut O) -> Result<Verdict, Fault> {
        Ok(refuse(&mut self.at, why_past(limit), out)?)
    }

    fn end<O: Sink>(&mut self, out: &mut O) -> Result<Verdict, Fault> {
        Ok(finish(&mut self.at, self.say, out)?)
    }

    ghost stays = { λ r size. record {
      grown = record {
        steps = Prim.omega arith;
        events = Prim.omega arith;
        idle = Prim.omega arith;
        given = Prim.omega arith;
        delivered = Prim.omega arith;
        lost = Prim.omega arith;
        copied = Prim.omega arith;
        copies = Prim.omega arith;
      };
      led = record { lines = Prim.omega arith; steps = Prim.omega arith };
    } };

    ghost joins = { λ a b c m n p q. record {
      grown = record {
        steps = Prim.omega (arith, p.grown.steps, q.grown.steps);
        events = Prim.omega (arith, p.grown.events, q.grown.events);
        idle = Prim.omega (arith, p.grown.idle, q.grown.idle);
        given = Prim.omega (arith, p.grown.given, q.grown.given);
        delivered = Prim.omega (arith, p.grown.delivered, q.grown.delivered);
        lost = Prim.omega (arith, p.grown.lost, q.grown.lost);
        copied = Prim.omega (arith, p.grown.copied, q.grown.copied);
        copies = Prim.omega (arith, p.grown.copies, q.grown.copies);
      };
      led = record {
        lines = Prim.omega (arith, p.led.lines, q.led.lines);
        steps = Prim.omega (arith, p.led.steps, q.led.steps);
      };
    } };

    ghost leaves = { λ a b m n room run. record {
      lines = Prim.omega (arith, room.lines, run.led.lines);
      steps = Prim.omega (arith, room.steps, run.led.steps);
    } };
}
