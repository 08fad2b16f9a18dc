//! The program `mesh_check`: it reads from standard input what `mesh run` wrote, or tables of other
//! routers in that form, and says on standard output whether the tables shown are sound, and so
//! have no cycle of next hops. It doesn't depend on the emulator. The top call, over any source and
//! sink, has the whole contract; `main` calls it over the standard streams, and ends with the
//! status of the answer.
#![tactic(auto)]

mod laws;
mod lines;
mod reading;
mod status;
mod top;

use mesh_io::{Sink, Source};
use mesh_shell::{Program, start};
use status::CheckStatus;
use std::alloc::Global;
use std::process::ExitCode;

/// The program.
struct Check;

impl Program for Check {
    ghost use Rattle.std.specs.Prelude.{◌≡◌, ◌<◌, length};
    ghost use Rattle.mesh_check.specs.Codes.{code_of};
    ghost use Rattle.mesh_check.specs.declared.status.CheckStatus.TheVariants.{Usage};

    type Status = CheckStatus;

    ghost is_other = { λ words. 0 < length words };

    ghost is_usage = { λ status. status ≡ Usage };

    ghost code_of = { code_of };

    fn answer<I: Source, O: Sink, E: Sink>(
        alloc: Global,
        words: &[&str],
        input: &mut I,
        out: &mut O,
        _errors: &mut E,
    ) -> CheckStatus {
        top::check(alloc, words, input, out)
    }

    fn code(status: CheckStatus) -> u8 {
        status.code()
    }
}

fn main(rt: HostRuntime) -> ExitCode {
    start::<Check>(&rt)
}
