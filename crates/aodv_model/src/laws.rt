//! Laws of one node. Each function has an empty body and a contract that states a law.
ghost use Rattle.aodv_model.specs.Laws.{StaleIsUnchanged, FullNumber, OpeningIsSound, TurnKeepsCore, SendKeepsCore, AskKeepsCore, TurnNamesTheMesh, SendNamesTheMesh, AskNamesTheMesh};

/// A reply is stale exactly where its update leaves the table unchanged.
pub fn stale_is_unchanged()
    ensures { StaleIsUnchanged }
{}

/// Breaking a link would raise a number past the greatest exactly where a valid entry that goes by
/// that link has the greatest.
pub fn full_number()
    ensures { FullNumber }
{}

/// A node that has done nothing yet is in order.
pub fn opening_is_sound()
    ensures { OpeningIsSound }
{}

/// A turn keeps a node in order, whatever message of the mesh it hears.
pub fn turn_keeps_core()
    ensures { TurnKeepsCore }
{}

/// The send of a stored datum keeps a node in order.
pub fn send_keeps_core()
    ensures { SendKeepsCore }
{}

/// A node's own request keeps it in order.
pub fn ask_keeps_core()
    ensures { AskKeepsCore }
{}

/// The effect of a turn names nodes of the mesh only.
pub fn turn_names_the_mesh()
    ensures { TurnNamesTheMesh }
{}

/// The effect of the send of a stored datum names nodes of the mesh only.
pub fn send_names_the_mesh()
    ensures { SendNamesTheMesh }
{}

/// The effect of a node's own request names nodes of the mesh only.
pub fn ask_names_the_mesh()
    ensures { AskNamesTheMesh }
{}
