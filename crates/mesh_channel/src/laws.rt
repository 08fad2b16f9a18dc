//! Laws of the definitions. Each function has an empty body and a contract that states a law.
ghost use Rattle.mesh_channel.specs.Laws.{ChosenScheduleIsReplayed, WorldsAreOfEvents, RunsOverChannelsAreLoopFree, EachDatumIsAccountedFor, LosslessChannelLosesNothing, LosslessChannelAddsNothing, ChosenEventsAreNotIdle, AddedEventsAreNotIdle};

/// The worlds of a run over a channel are those of the run of its events, one step after another.
pub fn worlds_are_of_events()
    ensures { WorldsAreOfEvents }
{}

/// After any number of events of a run over a channel no destination's valid routes have a loop.
pub fn runs_over_channels_are_loop_free()
    ensures { RunsOverChannelsAreLoopFree }
{}

/// In each world of such a run every datum that was given or doubled was delivered, waits, is in
/// flight, or was dropped.
pub fn each_datum_is_accounted_for()
    ensures { EachDatumIsAccountedFor }
{}

/// The schedule that a run over a channel chooses, run by itself, has the same lines and ends
/// alike. It comes to the same state, but for the number of lines, unless a full counter has ended
/// the run; and to the same last line if no line has ended it.
pub fn the_chosen_schedule_is_replayed()
    ensures { ChosenScheduleIsReplayed }
{}

/// Over a channel that loses and doubles nothing, and that has nothing left to do, no line that
/// lets the channel choose has it choose a line `lose` or `copy`.
pub fn a_lossless_channel_loses_nothing()
    ensures { LosslessChannelLosesNothing }
{}

/// Nor is anything added after an event of the input.
pub fn a_lossless_channel_adds_nothing()
    ensures { LosslessChannelAddsNothing }
{}

/// No event that the channel chooses for a line is idle, if nothing was left to do before the line.
pub fn chosen_events_are_not_idle()
    ensures { ChosenEventsAreNotIdle }
{}

/// Nor is an event that is added after one of the input.
pub fn added_events_are_not_idle()
    ensures { AddedEventsAreNotIdle }
{}
