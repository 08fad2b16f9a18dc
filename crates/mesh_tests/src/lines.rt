//! What the tests of lines share.
ghost use Rattle.std.specs.Prelude.{◌<◌};

use mesh_base::{Addr, Bytes, Mesh, MeshError, NoMemory};
use mesh_io::MemSource;
use std::alloc::Global;

/// The mesh of 10.0.0.1 and 10.0.0.2.
pub(crate) fn two_nodes() -> Result<Mesh, MeshError> {
    let mut mesh = Mesh::new();
    mesh.add(Addr(0x0a00_0001), 1)?;
    mesh.add(Addr(0x0a00_0002), 1)?;
    Ok(mesh)
}

/// A source that gives these bytes, at most `most` of them at each call, and fails at these calls.
pub(crate) fn source_of(
    alloc: Global,
    bytes: &[u8],
    most: usize,
    fails: &[u64],
) -> Result<MemSource, NoMemory>
    requires { 0 < most }
{
    MemSource::new(alloc, Bytes::copy_of(alloc, bytes)?, most, fails)
}
