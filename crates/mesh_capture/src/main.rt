//! The program `mesh_capture`: it reads from standard input a text that a run of the emulator has
//! printed, and writes to standard output a capture, in the classic pcap format, with one packet
//! for each copy that was heard or lost. The top call, over any source and sinks, has the whole
//! contract; `main` calls it over the standard streams, and ends with the status of the answer.
#![tactic(auto)]

mod capturing;
mod copies;
mod frame;
mod laws;
mod lines;
mod packets;
mod status;
mod top;

use mesh_io::{Sink, Source};
use mesh_shell::{Program, start};
use status::CaptureStatus;
use std::alloc::Global;
use std::process::ExitCode;

/// The program.
struct Capture;

impl Program for Capture {
    ghost use Rattle.std.specs.Prelude.{◌≡◌, ◌<◌, length};
    ghost use Rattle.mesh_capture.specs.Codes.{code_of};
    ghost use Rattle.mesh_capture.specs.declared.status.CaptureStatus.TheVariants.{Usage};

    type Status = CaptureStatus;

    ghost is_other = { λ words. 0 < length words };

    ghost is_usage = { λ status. status ≡ Usage };

    ghost code_of = { code_of };

    fn answer<I: Source, O: Sink, E: Sink>(
        alloc: Global,
        words: &[&str],
        input: &mut I,
        out: &mut O,
        errors: &mut E,
    ) -> CaptureStatus {
        top::capture(alloc, words, input, out, errors)
    }

    fn code(status: CaptureStatus) -> u8 {
        status.code()
    }
}

fn main(rt: HostRuntime) -> ExitCode {
    start::<Capture>(&rt)
}
