//! What holds of checkpoints and states.
ghost use Rattle.mesh_load.specs.Loading.{RunIsUnrefused};
ghost use Rattle.mesh_load.specs.RunStates.{OneRunState, OneStart, RunIsPlain};

use mesh_checkpoint::{balanced_is_taken, one_body};

/// A body is that of at most one plain run state (`IsPlainRunState`).
pub fn one_run_state()
    ensures { OneRunState }
{}

/// A checkpoint is that of at most one plain run state.
pub fn one_start()
    ensures { OneStart }
{
    one_body();
}

/// After the lines of any input the state's messages are what their packets mean, and all that it
/// names is in its mesh: so it is the one plain run state of its checkpoint.
pub fn a_run_is_plain()
    ensures { RunIsPlain }
{}

/// No refusal but lack of memory applies to the checkpoint of a state of a run.
pub fn a_run_is_unrefused()
    ensures { RunIsUnrefused }
{
    one_body();
    balanced_is_taken();
}
