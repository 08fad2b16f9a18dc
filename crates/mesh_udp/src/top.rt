//! The top call.
ghost use Rattle.std.specs.Prelude.{◌≡◌, ◌≢◌, ◌↔◌, ◌⊎◌, map, None, IfSome};
ghost use Rattle.std.specs.Io.KnownBytes.{IsAtEnd};
ghost use Rattle.mesh_io.specs.Cause.{Rose};
ghost use Rattle.mesh_router.specs.Output.{IsScriptRun};
ghost use Rattle.mesh_udp.specs.Words.{port_of};
ghost use Rattle.mesh_udp.specs.Openings.{IsOpened, IsDecided};

use crate::words::port_of;
use mesh_io::{Sink, Source};
use mesh_link::Link;
use mesh_router::{NodeStatus, run_script};
use std::alloc::Global;

/// Runs a router at the port that the words name: opens the link there before anything is read, and
/// then does the script, line by line. Each line of text is put as soon as it is known.
pub fn node_run<I: Source, O: Sink, L: Link>(
    alloc: Global,
    words: &[&str],
    input: &mut I,
    out: &mut O,
    link: &mut L,
) -> NodeStatus
    requires closed { L.port link.old ≡ None }

    // If the words name no port, nothing is read, written, opened or sent.
    ensures usage_exactly_for_other_words { (result ≡ NodeStatus.Usage)
        ↔ (port_of (map (λ w. w.now) words.now) ≡ None) }
    ensures untouched_by_other_words { result ≡ NodeStatus.Usage
        → (input.new ≡ input.old) × (out.new ≡ out.old) × (link.new ≡ link.old) }

    // What is written and sent is the log of the script with what the link's receive calls found,
    // and the answer is the run's verdict. After a fault, or lack of memory, it is a prefix of that
    // log, in the log's order: a datagram is sent only once all text before it is written.
    ensures text_datagrams_and_verdict { IfSome (port_of (map (λ w. w.now) words.now)) (λ port.
        IfSome (I.left input.old) (λ script. IsScriptRun script (L.arrived link.old)
        (O.held out.old, L.sent link.old) (O.held out.new, L.sent link.new) result)) }

    // The link is open at that port, unless opening it failed. Then nothing is read or put.
    ensures opened { IfSome (port_of (map (λ w. w.now) words.now)) (λ port.
        IsOpened port (L.port link.new) result) }
    ensures untouched_unless_opened { L.port link.new ≡ None
        → (input.new ≡ input.old) × (out.new ≡ out.old) }

    // `Done` only if the script was read to its end.
    ensures done_at_the_end { result ≡ NodeStatus.Done → IsAtEnd (I.left input.new) }

    // A fault is answered only if the source, the sink or the link has failed in this call.
    ensures cause_of_read_fault { result ≡ NodeStatus.ReadFault
        → Rose (I.faults input.old) (I.faults input.new) }
    ensures cause_of_write_fault { result ≡ NodeStatus.WriteFault
        → Rose (O.faults out.old) (O.faults out.new) }
    ensures cause_of_link_fault { result ≡ NodeStatus.LinkFault
        → Rose (L.faults link.old) (L.faults link.new) }

    // No other answer comes if one of them has failed.
    ensures no_other_fault_of_input { result ≢ NodeStatus.ReadFault
        → I.faults input.new ≡ I.faults input.old }
    ensures no_other_fault_of_out { result ≢ NodeStatus.WriteFault
        → O.faults out.new ≡ O.faults out.old }
    ensures no_other_fault_of_link { result ≢ NodeStatus.LinkFault
        → L.faults link.new ≡ L.faults link.old }

    // If nothing has failed, the script has its verdict, unless memory runs out.
    ensures complete { IfSome (port_of (map (λ w. w.now) words.now)) (λ port.
        (Rose (I.faults input.old) (I.faults input.new) → ⊥)
        → (Rose (O.faults out.old) (O.faults out.new) → ⊥)
        → (Rose (L.faults link.old) (L.faults link.new) → ⊥)
        → IsDecided result ⊎ (result ≡ NodeStatus.NoMemory)) }
{
    match port_of(words) {
        None => NodeStatus::Usage,
        Some(port) => match link.open(port) {
            Ok(()) => run_script(alloc, input, out, link),
            Err(_) => NodeStatus::LinkFault,
        },
    }
}
