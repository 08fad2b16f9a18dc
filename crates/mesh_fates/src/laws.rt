//! Laws of the definitions. Each function has an empty body and a contract that states a law.
ghost use Rattle.mesh_fates.specs.Laws.{LosslessLeavesNothing, PromptIsDueNext, DecidingKeepsOrder, DoublingKeepsOrder, FatesTakeWords, CastsTakeWords};

/// If the rates of loss and doubling are 0, no copy is lost or doubled.
pub fn lossless_leaves_nothing()
    ensures { LosslessLeavesNothing }
{}

/// If no copy is late, each that is planned is due in the next tick.
pub fn prompt_is_due_next()
    ensures { PromptIsDueNext }
{}

/// A plan stays ordered by tick, and then by number, whatever is decided of the copies of a cast.
pub fn deciding_keeps_order()
    ensures { DecidingKeepsOrder }
{}

/// A plan stays ordered when the input makes a double.
pub fn doubling_keeps_order()
    ensures { DoublingKeepsOrder }
{}

/// A fate takes three words, or five if the copy is doubled.
pub fn fates_take_words()
    ensures { FatesTakeWords }
{}

/// The copies of a cast take three words each, and two more for each of them that is doubled.
pub fn casts_take_words()
    ensures { CastsTakeWords }
{}
