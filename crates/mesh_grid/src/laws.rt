//! Laws of the definitions. Each function has an empty body and a contract that states a law.
ghost use Rattle.mesh_grid.specs.Laws.{LinksFollowPlaces, WorldsAreOfEvents, StateIsOfEvents, RunsWithPlacesAreLoopFree, LinesAreLoopFree, RunStateIsLoopFree, DataAreAccountedFor, EventsAreOfMesh, OtherLineIsAsInSchedule, PlaceLineIsWrittenAsItStands};

/// After each allowed line the links that stand are those that follow from the places.
pub fn links_follow_places()
    ensures { LinksFollowPlaces }
{}

/// The worlds of a run with places are those of the run of its events, one step after another. The
/// events of a line that puts a node at a place are the changes of links that follow.
pub fn worlds_are_of_events()
    ensures { WorldsAreOfEvents }
{}

/// So is the world of each of its states: after each line, and after each event of the next.
pub fn each_state_is_of_events()
    ensures { StateIsOfEvents }
{}

/// After any number of events of a run with places no destination's valid routes have a loop.
pub fn runs_with_places_are_loop_free()
    ensures { RunsWithPlacesAreLoopFree }
{}

/// After no line of a run with places do a destination's valid routes have a loop.
pub fn lines_are_loop_free()
    ensures { LinesAreLoopFree }
{}

/// Nor after any event of the next line.
pub fn states_are_loop_free()
    ensures { RunStateIsLoopFree }
{}

/// In a run with places as many data were given or doubled as were delivered, wait, are in flight,
/// or were dropped.
pub fn data_are_accounted_for()
    ensures { DataAreAccountedFor }
{}

/// Each event of a run with places is one of its mesh.
pub fn events_are_of_the_mesh()
    ensures { EventsAreOfMesh }
{}

/// A line that is not about a place, if it is allowed, comes to what it comes to in a schedule.
pub fn other_lines_are_as_in_a_schedule()
    ensures { OtherLineIsAsInSchedule }
{}

/// The bytes of a line that puts a node at a place are those that it is written back as.
pub fn a_place_line_is_written_as_it_stands()
    ensures { PlaceLineIsWrittenAsItStands }
{}
