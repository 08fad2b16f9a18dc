//! Writing a made schedule.
ghost use Rattle.std.specs.Prelude.{◌≤◌};
ghost use Rattle.mesh_io.specs.Cause.{HasCause};
ghost use Rattle.mesh_io.specs.Puts.{Puts};
ghost use Rattle.mesh_base.specs.declared.limits.TheConstants.{MOST_NODES};
ghost use Rattle.mesh_make.specs.declared.sizes.TheConstants.{MOST_STEPS};
ghost use Rattle.mesh_make.specs.Made.{made_schedule};

use crate::maker::Maker;
use mesh_base::LineBuf;
use mesh_io::{PutFault, Sink, put_all};

/// Writes the schedule that a seed makes, a few lines at a time. It ends at the first fault of the
/// sink.
pub fn make<O: Sink>(seed: u64, nodes: u32, steps: u32, out: &mut O) -> Result<(), PutFault>
    requires two { 2 ≤ nodes }
    requires nodes_most { nodes ≤ MOST_NODES }
    requires one { 1 ≤ steps }
    requires steps_most { steps ≤ MOST_STEPS }
    ensures text { Puts (O.held out.old) (O.held out.new) (made_schedule seed nodes steps) result }
    ensures cause { HasCause (O.faults out.old) (O.faults out.new) result }
{
    let mut maker = Maker::new(seed, nodes, steps);
    let mut text = LineBuf::new();
    let mut line = LineBuf::new();
    while !maker.is_done() {
        maker.next_lines(&mut text, &mut line);
        put_all(out, line.as_slice())?;
    }
    Ok(())
}
