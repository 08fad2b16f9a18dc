//! The program `mesh`: `mesh run` reads a schedule from standard input and writes the text of its
//! run to standard output; `run --quiet`, `make` and `trial` are the other forms, and `run` and
//! `trial` take `--variant NAME` directly after them. The top call, over any source and sink, has
//! the whole contract; `main` calls it over the standard streams, and ends with the status of the
//! answer.
#![tactic(auto)]

mod schedule;
mod top;
mod trial;
mod words;

use mesh_io::{Sink, Source};
use mesh_run::Status;
use mesh_shell::{Program, start};
use std::alloc::Global;
use std::process::ExitCode;

/// The program.
struct Mesh;

impl Program for Mesh {
    ghost use Rattle.std.specs.Prelude.{◌≡◌, None};
    ghost use Rattle.mesh_run.specs.Codes.{code_of};
    ghost use Rattle.mesh_run.specs.declared.status.Status.TheVariants.{Usage};
    ghost use Rattle.mesh_cli.specs.Words.{command_of};

    type Status = Status;

    ghost is_other = { λ words. command_of words ≡ None };

    ghost is_usage = { λ status. status ≡ Usage };

    ghost code_of = { code_of };

    fn answer<I: Source, O: Sink, E: Sink>(
        alloc: Global,
        words: &[&str],
        input: &mut I,
        out: &mut O,
        _errors: &mut E,
    ) -> Status {
        top::mesh(alloc, words, input, out)
    }

    fn code(status: Status) -> u8 {
        status.code()
    }
}

fn main(rt: HostRuntime) -> ExitCode {
    start::<Mesh>(&rt)
}
