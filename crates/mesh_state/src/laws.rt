//! Laws of the definitions. Each function does nothing, and has a contract that states a law.
ghost use Rattle.mesh_state.specs.Laws.{CheckpointIsItsPart, SavedRunGoesOn, LoadedRunGoesOn};

use mesh_load::one_start;

/// If an input is a checkpoint followed by lines, its checkpoint part is that checkpoint, and the
/// lines are the rest.
pub fn a_checkpoint_is_its_part()
    ensures { CheckpointIsItsPart }
{}

/// The run of a schedule, within the limit of an input, in two parts, the first of which has whole
/// lines, all done, is that of the first, and then that of the second from the state after it on.
pub fn a_saved_run_goes_on()
    ensures { SavedRunGoesOn }
{}

/// If a schedule of whole lines is done, its run with more lines after it, within the limit of an
/// input, is its own, and then the one that goes on with these lines from its last checkpoint.
pub fn a_loaded_run_goes_on()
    ensures { LoadedRunGoesOn }
{
    one_start();
}
