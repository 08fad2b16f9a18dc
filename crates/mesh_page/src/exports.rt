//! The exported call.
ghost use Rattle.std.specs.Prelude.{◌≡◌, ◌↔◌, ◌<◌, ◌⊎◌, true, None, IfSome, length, take, drop};
ghost use Rattle.mesh_shell.specs.Fold.{whole};
ghost use Rattle.mesh_text.specs.EveryWorld.{IsLoopFreeRun, IsAccountedRun};
ghost use Rattle.mesh_text.specs.NamedData.{IsNamedRun};
ghost use Rattle.mesh_text.specs.declared.verdict.Verdict.TheVariants.{Finished};
ghost use Rattle.mesh_run.specs.Codes.{code_of};
ghost use Rattle.mesh_run.specs.declared.status.Status.TheVariants as statuses;
ghost use Rattle.mesh_blocks.specs.declared.below.Below.TheVariants as below;
ghost use Rattle.mesh_blocks.specs.Outputs.{IsWatchedRun};
ghost use Rattle.mesh_page.specs.Variants.{variant_numbered};
ghost use Rattle.mesh_page.specs.Told.{text_by, IsTold};

use crate::running::run_in_memory;
use crate::variants::variant_numbered;
use mesh_run::Status;
use std::alloc::Global;

/// Runs the schedule of these bytes, in a world of its own, and writes the text of its run from the
/// start of `out` on: that of `mesh run`, or with `blocks` that of `mesh_watch`. `len` is then how
/// many bytes it has written, whatever it answers. All nodes run the variant of this number: 0 the
/// protocol as AWN has it, 1 requests told apart by number, 2 replies passed on by any valid route,
/// 3 broadcast errors.
///
/// It answers the status of those programs: 0 done; 2 there is no variant of this number; 3 a line
/// isn't allowed, 4 a counter is full, and the text's last line says which line; 6 `out` is full,
/// and holds the first bytes of the text; 7 memory ran out, and what was written is a prefix of the
/// text.
#[unsafe(no_mangle)]
pub extern "C" fn mesh_page_run(
    alloc: Global,
    variant: u32,
    blocks: bool,
    input: &[u8],
    out: &mut [u8],
    len: &mut usize,
) -> u32
    // If there is no variant of this number, nothing is written.
    ensures usage_exactly_for_other_numbers { (result ≡ code_of statuses.Usage)
        ↔ (variant_numbered variant ≡ None) }
    ensures untouched_by_other_numbers { result ≡ code_of statuses.Usage
        → (len.new ≡ 0) × (out.new ≡ out.old) }

    // What is written is the text of the input, with its blocks or without, and the answer is its
    // verdict. If `out` is full, or memory runs out, a prefix of that text is written.
    ensures text_of_a_loop_free_run { IfSome (variant_numbered variant) (λ v.
        IsTold (text_by blocks v input.now) (take len.new out.new) result) }

    // In no world of that run, after any number of its events, does a destination have a loop; in
    // each of these worlds every datum is accounted for; and the run's text has a line for each
    // time that a datum was delivered or dropped. With blocks the run goes through the same worlds,
    // and its text is the same but for the blocks: each is whole lines, directly below those of its
    // event, and shows the node that the event has changed, in the state after the event.
    ensures loop_free { IfSome (variant_numbered variant) (λ v. IsLoopFreeRun v input.now) }
    ensures accounted { IfSome (variant_numbered variant) (λ v. IsAccountedRun v input.now) }
    ensures named { IfSome (variant_numbered variant) (λ v. IsNamedRun v input.now) }
    ensures blocks { blocks ≡ true
        → IfSome (variant_numbered variant) (λ v. IsWatchedRun below.Blocks v input.now) }

    // What comes after the text in `out` is as it was, and 6 is answered only if `out` is full.
    ensures room { length out.new ≡ length out.old }
    ensures behind { drop len.new out.new ≡ drop len.new out.old }
    ensures full { result ≡ code_of statuses.WriteFault → len.new ≡ length out.old }

    // If every line is allowed, no event is refused and the text is shorter than `out`, it is
    // written whole, unless memory runs out.
    ensures complete { IfSome (variant_numbered variant) (λ v.
        (text_by blocks v input.now).verdict ≡ Finished
        → length (whole (text_by blocks v input.now)) < length out.old
        → (result ≡ code_of statuses.Done) ⊎ (result ≡ code_of statuses.NoMemory)) }
{
    let Some(variant) = variant_numbered(variant) else {
        *len = 0;
        return u32::from(Status::Usage.code());
    };
    let status = run_in_memory(alloc, variant, blocks, input, out, len);
    u32::from(status.code())
}
