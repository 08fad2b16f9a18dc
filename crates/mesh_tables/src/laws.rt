//! What holds for the definitions.
ghost use Rattle.mesh_tables.specs.Laws.{SoundTablesHaveNoCycle};

/// Sound tables have no cycle of next hops. This is about the tables that were shown: a node that
/// wasn't shown has no edge, and tables that were shown at different moments can have edges that
/// never existed together.
pub fn sound_tables_have_no_cycle()
    ensures { SoundTablesHaveNoCycle }
{}
