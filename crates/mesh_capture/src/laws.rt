//! Laws of the definitions. Each function has an empty body and a contract that states a law.
ghost use Rattle.mesh_capture.specs.Laws.{HeadersSumToAllOnes, DatagramsSumToAllOnes, PacketsAreAsLongAsTheySay, RunIsCaptured, WatchedRunIsCaptured, RunWithPlacesIsCaptured};

/// The 16-bit words of a packet's header sum to all ones, as its receiver checks.
pub fn headers_sum_to_all_ones()
    ensures { HeadersSumToAllOnes }
{}

/// So do those of its datagram, with the addresses, the protocol and the size.
pub fn datagrams_sum_to_all_ones()
    ensures { DatagramsSumToAllOnes }
{}

/// A packet is as long as it says.
pub fn packets_are_as_long_as_they_say()
    ensures { PacketsAreAsLongAsTheySay }
{}

/// If the text of a run is within the limits of a text, its capture has the packets of the copies
/// that the run's events deliver and lose, and none of its lines is refused.
pub fn a_run_is_captured()
    ensures { RunIsCaptured }
{}

/// The same holds for the text of a watched run with blocks: it has one below each event that has
/// changed a node.
pub fn a_watched_run_is_captured()
    ensures { WatchedRunIsCaptured }
{}

/// The same holds for the text of a run with places, in which links are made and cut as nodes come
/// to their places.
pub fn a_run_with_places_is_captured()
    ensures { RunWithPlacesIsCaptured }
{}
