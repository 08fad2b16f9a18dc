//! Laws of all runs. Each function has an empty body and a contract that states a law.
ghost use Rattle.mesh_model.specs.Laws.{StepKeeps, StepKeepsLoopSafe, StartKeeps, RunKeeps, NoCycleIn, LoopFree, BetterAlongEdges, WalkIsShort, RouteEnds, PickIsEnabled, PickIsLeast, StepBalances, Account, DoublingIsCounted, StartHasWalks, StepKeepsWalks, HonestHops, OnlyNumbersFill};

/// Every event of the mesh keeps the invariant.
pub fn step_keeps()
    ensures { StepKeeps }
{}

/// Every event keeps what excludes cycles.
pub fn step_keeps_loop_safe()
    ensures { StepKeepsLoopSafe }
{}

/// The opening world has the invariant.
pub fn start_keeps()
    ensures { StartKeeps }
{}

/// Every world of every run has the invariant.
pub fn run_keeps()
    ensures { RunKeeps }
{}

/// A world in which `IsLoopSafe` holds has no cycle for any destination.
pub fn no_cycle_in()
    ensures { NoCycleIn }
{}

/// In no world of any run does a destination have a cycle.
pub fn loop_free()
    ensures { LoopFree }
{}

/// Along each edge the next node's valid entry is the better one.
pub fn better_along_edges()
    ensures { BetterAlongEdges }
{}

/// If the invariant holds, a walk from a node of the mesh has at most as many nodes as the mesh.
pub fn walk_is_short()
    ensures { WalkIsShort }
{}

/// If the invariant holds, `route_end` is where a route ends, and a walk leads there.
pub fn route_ends()
    ensures { RouteEnds }
{}

/// The chosen event is a turn, a delivery, a send or a request of the mesh, and is enabled.
pub fn pick_is_enabled()
    ensures { PickIsEnabled }
{}

/// If a turn, a delivery, a send or a request is enabled, one is chosen, and no enabled one comes
/// before it.
pub fn pick_is_least()
    ensures { PickIsLeast }
{}

/// Every event of the mesh keeps the account of the data.
pub fn step_balances()
    ensures { StepBalances }
{}

/// Over a run no datum is invented, and none is lost without a trace.
pub fn account()
    ensures { Account }
{}

/// An event's outcome says how many data the event doubles.
pub fn doubling_is_counted()
    ensures { DoublingIsCounted }
{}

/// `HasWalks` holds of the opening world.
pub fn start_has_walks()
    ensures { StartHasWalks }
{}

/// Every event keeps a walk for each valid entry and each request and reply.
pub fn step_keeps_walks()
    ensures { StepKeepsWalks }
{}

/// Each valid entry in each world of each run has an honest walk of as many links as its hops. They
/// are at most as many as the nodes.
pub fn honest_hops()
    ensures { HonestHops }
{}

/// No step of a run is refused for a hop count or for a request id.
pub fn only_numbers_fill()
    ensures { OnlyNumbersFill }
{}
