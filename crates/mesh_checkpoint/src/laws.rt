//! What holds of checkpoints.
ghost use Rattle.mesh_checkpoint.specs.Laws.{WrittenIsRead, ReadIsWritten, FittingIsWritten, OneCheckpoint, OneBody, BalancedIsTaken, OneRefusal, OneState, FittingIsState};

/// A body that fits is read back from the bytes that are written for it.
pub fn written_is_read()
    ensures { WrittenIsRead }
{}

/// Bytes that are read as a body are those that are written for it.
pub fn read_is_written()
    ensures { ReadIsWritten }
{}

/// A body that fits and isn't too long has a checkpoint.
pub fn fitting_is_written()
    ensures { FittingIsWritten }
{}

/// A body has at most one checkpoint.
pub fn one_checkpoint()
    ensures { OneCheckpoint }
{}

/// A checkpoint has one body.
pub fn one_body()
    ensures { OneBody }
{}

/// A checkpoint whose sums are balanced isn't refused.
pub fn balanced_is_taken()
    ensures { BalancedIsTaken }
{}

/// Bytes are refused for at most one reason.
pub fn one_refusal()
    ensures { OneRefusal }
{}

/// A state has at most one checkpoint.
pub fn one_state()
    ensures { OneState }
{}

/// A state whose numbers are in the table's ranges has a checkpoint, unless its body is too long.
pub fn fitting_is_state()
    ensures { FittingIsState }
{}
