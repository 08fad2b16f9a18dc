//! A run from bytes in memory to the caller's own memory.
ghost use Rattle.std.specs.Prelude.{◌≡◌, ◌≢◌, [], Some, length, take, drop};
ghost use Rattle.mesh_run.specs.Causes.{HasStatusCause};
ghost use Rattle.mesh_run.specs.Outputs.{IsOutput};
ghost use Rattle.mesh_page.specs.Told.{text_by};

use crate::sheet::{Lent, Sheet};
use mesh_base::{Bytes, Variant};
use mesh_blocks::Below;
use mesh_io::{Sink, SureSource};
use mesh_run::Status;
use mesh_world::World;
use std::alloc::Global;
use std::marker::Brand;

// Runs a schedule, with its blocks or without.
fn run_by<O: Sink>(
    alloc: Global,
    variant: Variant,
    blocks: bool,
    input: &mut SureSource,
    out: &mut O,
) -> Status
    ensures written { IsOutput (O.held out.old) (O.held out.new)
        (text_by blocks variant input.old) result }
    ensures read { result ≢ Status.ReadFault }
    ensures write { HasStatusCause Status.WriteFault (O.faults out.old) (O.faults out.new) result }
    ensures words { result ≢ Status.Usage }
{
    if blocks {
        mesh_blocks::run(alloc, variant, Below::Blocks, input, out)
    } else {
        mesh_run::run::<World, SureSource, O>(alloc, false, variant, input, out)
    }
}

// `run_by` to memory of one borrow, which is returned.
fn run_into<'s, L: Lent>(
    alloc: Global,
    variant: Variant,
    blocks: bool,
    input: &mut SureSource,
    out: &'s mut [u8],
    len: &mut usize,
    status: &mut Status,
) -> &'s mut [u8]
    requires name { out.ghost_name ≡ L.name }
    requires start { out.old ≡ L.start }
    ensures memory { result.ghost_name ≡ out.entry.ghost_name }
    ensures written { IsOutput (Some []) (Some (take len.new result.now))
        (text_by blocks variant input.old) status.new }
    ensures room { length result.now ≡ length out.old }
    ensures behind { drop len.new result.now ≡ drop len.new out.old }
    ensures full { status.new ≡ Status.WriteFault → len.new ≡ length out.old }
    ensures read { status.new ≢ Status.ReadFault }
    ensures words { status.new ≢ Status.Usage }
{
    let mut sheet: Sheet<'s, L> = Sheet::new(out);
    *status = run_by(alloc, variant, blocks, input, &mut sheet);
    *len = sheet.len();
    sheet.give_back()
}

/// Runs the schedule of these bytes, in a world of its own where all nodes run this variant of the
/// protocol, and writes its text from the start of `out` on, with a block below each event that has
/// changed a node, or without; `len` is then how many bytes it has written. WriteFault is answered
/// only if `out` is full; what comes after the text in `out` is as it was.
pub(crate) fn run_in_memory(
    alloc: Global,
    variant: Variant,
    blocks: bool,
    input: &[u8],
    out: &mut [u8],
    len: &mut usize,
) -> Status
    ensures written { IsOutput (Some []) (Some (take len.new out.new))
        (text_by blocks variant input.now) result }
    ensures room { length out.new ≡ length out.old }
    ensures behind { drop len.new out.new ≡ drop len.new out.old }
    ensures full { result ≡ Status.WriteFault → len.new ≡ length out.old }
    ensures read { result ≢ Status.ReadFault }
    ensures words { result ≢ Status.Usage }
{
    *len = 0;
    let Ok(bytes) = Bytes::copy_of(alloc, input) else {
        return Status::NoMemory;
    };
    let mut source = SureSource::new(bytes);
    let mut status = Status::NoMemory;
    // For the proof: what is returned is `out`, as the sheet has left it.
    let _out = run_into::<Brand>(alloc, variant, blocks, &mut source, out, len, &mut status);
    status
}
