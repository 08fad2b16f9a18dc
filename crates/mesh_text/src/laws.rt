//! Laws of the definitions. Each function has an empty body and a contract that states a law.
ghost use Rattle.mesh_text.specs.Laws.{PrintedLineParses, ReadLineIsInRange, ReadLineIsWrittenAsItWas, DataAreAccountedFor, EachDatumIsAccountedFor, DataAreNamed, EachDatumIsNamed, SumsAreInOrder, RunIsRunOfEvents, AllEventsCount, EventsAreOfMesh, RunsAreLoopFree, RunKeepsInvariant, AutoLineHasFourBytes, LineHasFewEvents, EventKeepsAccount, StateIsOfRun, RunStateIsLoopFree, RunGoesOn, StepsAreEvents, FullEventStands, LastLineIsOfLastState};

/// A line that is written back is read as the same line.
pub fn a_printed_line_parses()
    ensures { PrintedLineParses }
{}

/// What a line is read as is in its range: its nodes are in the mesh, and its numbers and its text
/// are those that a line may have.
pub fn a_read_line_is_in_range()
    ensures { ReadLineIsInRange }
{}

/// A line that is read, and isn't blank, is written back as it was, except that `node ADDR` is
/// written back with the number 1.
pub fn a_read_line_is_written_as_it_was()
    ensures { ReadLineIsWrittenAsItWas }
{}

/// After the last allowed line the counts of data add up: as many were given and doubled as were
/// delivered, wait, are in flight, and were dropped.
pub fn data_are_accounted_for()
    ensures { DataAreAccountedFor }
{}

/// After any number of an input's events, each datum that was given or doubled was delivered,
/// waits, is in flight, or was dropped.
pub fn each_datum_is_accounted_for()
    ensures { EachDatumIsAccountedFor }
{}

/// The sums of a run are in order: idle events, given data and doubled data together are no more
/// than the events, and delivered and dropped data together no more than given and doubled data.
pub fn the_sums_are_in_order()
    ensures { SumsAreInOrder }
{}

/// The last world of a run is the world after as many of the input's events as were counted, one
/// step after another.
pub fn a_run_is_a_run_of_events()
    ensures { RunIsRunOfEvents }
{}

/// Unless a full counter has ended the run, each event of the input was counted.
pub fn all_events_count()
    ensures { AllEventsCount }
{}

/// Each event of an input is an event of its mesh.
pub fn events_are_of_the_mesh()
    ensures { EventsAreOfMesh }
{}

/// After any number of an input's events no destination's valid routes have a loop.
pub fn runs_are_loop_free()
    ensures { RunsAreLoopFree }
{}

/// After any number of an input's events the world has the invariant.
pub fn a_run_keeps_the_invariant()
    ensures { RunKeepsInvariant }
{}

/// A line of chosen events has at least 4 bytes.
pub fn an_auto_line_has_four_bytes()
    ensures { AutoLineHasFourBytes }
{}

/// A line does at most `MOST_EVENTS` / 4 events for each of its bytes.
pub fn a_line_has_few_events()
    ensures { LineHasFewEvents }
{}

/// If the counts of data add up before an event of the mesh, they do so after it.
pub fn an_event_keeps_the_account()
    ensures { EventKeepsAccount }
{}

/// In each state of a run, after any line and after any event within one, the world is that of the
/// run of the events so far.
pub fn every_state_is_of_the_run()
    ensures { StateIsOfRun }
{}

/// In no state of a run do a destination's valid routes have a loop.
pub fn every_state_is_loop_free()
    ensures { RunStateIsLoopFree }
{}

/// The last line of a finished run is that of its last state.
pub fn the_last_line_is_of_the_last_state()
    ensures { LastLineIsOfLastState }
{}

/// Unless a full counter has ended a run, its text has as many lines of delivered data, and of
/// dropped data, as were counted.
pub fn data_are_named()
    ensures { DataAreNamed }
{}

/// However a run ends, its text has a line for each time that a datum was delivered, and one for
/// each time that it was dropped.
pub fn each_datum_is_named()
    ensures { EachDatumIsNamed }
{}

/// In an input within its limit, the run of complete lines that were all done, and of what follows
/// them, is the run of the lines and then, from their last state on, the run of what follows.
pub fn a_run_goes_on()
    ensures { RunGoesOn }
{}

/// A run's steps increase by as many as its counted events.
pub fn steps_are_events()
    ensures { StepsAreEvents }
{}

/// An event that a full counter refuses is refused in a state after some of its line's events.
pub fn a_refused_event_stands_in_its_line()
    ensures { FullEventStands }
{}
