//! The state of a node.
use aodv_asked::Asked;
use aodv_waiting::Waiting;
use mesh_base::Variant;

/// The state of a node, except its inbox.
#[derive(Drop)]
pub struct Core<T> {
    /// The node's own index in the mesh.
    pub me: usize,
    /// Its own sequence number, at least 1.
    pub sn: u32,
    /// The variant of the protocol that it runs. No step changes it.
    pub variant: Variant,
    /// The route requests that it has seen.
    pub asked: Asked,
    /// Its routing table.
    pub table: T,
    /// The data that wait for a route.
    pub waiting: Waiting,
}
