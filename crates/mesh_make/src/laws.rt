//! Laws of the definitions. Each function has an empty body and a contract that states a law.
ghost use Rattle.mesh_make.specs.Laws.{MadeSchedulesAreAllowed, MadeSchedulesAreShort};

/// No run of a made schedule ends at a line that is refused.
pub fn made_schedules_are_allowed()
    ensures { MadeSchedulesAreAllowed }
{}

/// A made schedule has fewer than 4000000 bytes, and so fewer than an input may have.
pub fn made_schedules_are_short()
    ensures { MadeSchedulesAreShort }
{}
