//! Laws of all runs. Each function has an empty body and a contract that states a law.
ghost use Rattle.mesh_trail.specs.Laws.{StartHolds, StepHolds, HeldIsHonest};

/// In the opening world there is nothing for which a walk is to be kept.
pub fn start_holds()
    ensures { StartHolds }
{}

/// If the invariants hold and the lists are walks before an event, the lists after it are walks.
pub fn step_holds()
    ensures { StepHolds }
{}

/// The list of a valid entry, reversed, is an honest walk of as many links as the entry has hops.
pub fn held_is_honest()
    ensures { HeldIsHonest }
{}
