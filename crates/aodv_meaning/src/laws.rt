//! The laws, as functions that do nothing.
ghost use Rattle.aodv_meaning.specs.Laws.{SentMeans, SpelledIsInMesh, WrittenIsSent};

/// What was written for a message means that message, and names nobody outside the mesh.
pub fn sent_means()
    ensures { SentMeans }
{}

/// A packet that isn't refused, and names nobody outside the mesh, means a message of the mesh.
pub fn spelled_is_in_mesh()
    ensures { SpelledIsInMesh }
{}

/// In a mesh that has a node, bytes are what is sent for their meaning exactly where they encode a
/// message of the mesh and are what is written for it, which a reader can test.
pub fn written_is_sent()
    ensures { WrittenIsSent }
{}
