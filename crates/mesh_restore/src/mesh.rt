//! The nodes of a mesh.
ghost use Rattle.std.specs.Prelude.{◌≡◌, ◌<◌, ◌≤◌, ◌∷◌, ◌++◌, [], length};
ghost use Rattle.std.specs.List.{AllByRecursion};
ghost use Rattle.mesh_base.specs.declared.limits.TheConstants.{MOST_NODES};
ghost use Rattle.mesh_checkpoint.specs.Formats.{get_rising};
ghost use Rattle.mesh_checkpoint.specs.Checkpoint as model;
ghost use Rattle.mesh_checkpoint.specs.Reading.{Gives};

use mesh_base::{Addr, Mesh};
use mesh_checkpoint::NODES_END;
use mesh_checkpoint::numbers::number16;
use mesh_checkpoint::reading::{Station, read_station, rise};

// Adds a node, whose address is above those of all others.
fn append(mesh: &mut Mesh, station: Station)
    requires first { 1 ≤ station.first }
    requires last { AllByRecursion (λ p. p.0 < station.address) mesh.old }
    requires few { length mesh.old < MOST_NODES }
    ensures { mesh.new ≡ mesh.old ++ (station.address, station.first) ∷ [] }
{
    // Its contract says that the addresses rise.
    let _count = mesh.len();
    // It isn't refused: the address is new, and there is room.
    let _added = mesh.add(Addr(station.address), station.first);
}

// `count` nodes, by rising address, and the bytes after them.
fn stations(count: u16, bytes: &[u8]) -> Option<(Mesh, &[u8])>
    requires { count ≤ MOST_NODES }
    ensures { Gives (λ x. (x.0, x.1.now)) result
        (get_rising (λ p. p.0) model.station.get count 0 bytes.now) }
{
    let mut mesh = Mesh::new();
    let mut rest = bytes;
    let mut low = 0;
    for _ in 0..count {
        let (station, behind) = read_station(rest)?;
        low = rise(low, u64::from(station.address))?;
        append(&mut mesh, station);
        rest = behind;
    }
    Some((mesh, rest))
}

/// The mesh at the start of the bytes, and the bytes after it.
pub fn read_mesh(bytes: &[u8]) -> Option<(Mesh, &[u8])>
    ensures { Gives (λ x. (x.0, x.1.now)) result (model.mesh.get bytes.now) }
{
    let (count, rest) = number16(bytes, 0, NODES_END)?;
    stations(count, rest)
}
