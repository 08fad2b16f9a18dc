//! Laws of the definitions. Each function has an empty body and a contract that states a law.
ghost use Rattle.mesh_blocks.specs.Laws.{WatchedRunIsTheRun, StateIsTheRuns, BlocksAreAllThatIsAdded, DataAreAccountedFor, ChangesLeadOn, SameLinesHaveNoChanges};

/// A watched run differs from the run in its lines alone: it comes to the same state, verdict and
/// last line.
pub fn a_watched_run_is_the_run()
    ensures { WatchedRunIsTheRun }
{}

/// Its states are those of the run: after each of its lines, and after each event of the next.
pub fn each_state_is_the_runs()
    ensures { StateIsTheRuns }
{}

/// The text of a watched run is that of the run and, directly below each event that has changed a
/// node, a block, which shows that node in the state after the event as a line `show` does, or what
/// has changed of that block. The lines of events, what is below them, and what is between them are
/// whole lines.
pub fn blocks_are_all_that_is_added()
    ensures { BlocksAreAllThatIsAdded }
{}

/// In a watched run as many data were given or doubled as were delivered, wait, are in flight, or
/// were dropped.
pub fn data_are_accounted_for()
    ensures { DataAreAccountedFor }
{}

/// The changes of a block lead from the block before to the block after: for any line, how often it
/// occurs before, plus how often it came, is how often it occurs after, plus how often it went.
pub fn changes_lead_on()
    ensures { ChangesLeadOn }
{}

/// An unchanged block has no changes.
pub fn same_lines_have_no_changes()
    ensures { SameLinesHaveNoChanges }
{}
