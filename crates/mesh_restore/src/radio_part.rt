//! The links and the copies in flight.
ghost use Rattle.std.specs.Prelude.{◌≤◌, MatchResult};
ghost use Rattle.mesh_base.specs.declared.limits.TheConstants.{MOST_NODES};
ghost use Rattle.mesh_restore.specs.Reading.{Refuses};
ghost use Rattle.mesh_restore.specs.RadioParts.{radio_part, IsRadioPartRead};

use crate::copies::fly_all;
use crate::error::ReadError;
use crate::links::{behind_links, link_all};
use mesh_checkpoint::numbers::{number16, number32, number64};
use mesh_checkpoint::{END16, END32, GREATEST_NEXT_ID};
use mesh_radio::Radio;
use std::alloc::Global;

/// A radio with the links and the copies in flight at the start of the bytes, in a mesh of this
/// many nodes; whether no copy is from a node to itself (such a copy isn't put into the radio); and
/// the bytes after them. The links are read twice, since a radio is made with the id of the next
/// copy, which comes after them.
pub fn read_radio(
    alloc: Global,
    bytes: &[u8],
    nodes: u32,
) -> Result<(Radio, bool, &[u8]), ReadError>
    requires { nodes ≤ MOST_NODES }
    ensures { let read = (radio_part nodes).get bytes.now in
        MatchResult result (λ x. IsRadioPartRead nodes read x.0 x.1 x.2.now) (λ e. Refuses e read) }
{
    let Some((count, links)) = number16(bytes, 0, END16) else {
        return Err(ReadError::Spelling);
    };
    let Some(rest) = behind_links(count, links, nodes) else {
        return Err(ReadError::Spelling);
    };
    let Some((next, rest)) = number64(rest, 1, GREATEST_NEXT_ID + 1) else {
        return Err(ReadError::Spelling);
    };
    let Some((copies, rest)) = number32(rest, 0, END32) else {
        return Err(ReadError::Spelling);
    };
    let mut radio = Radio::restore(alloc, nodes as usize, next)?;
    let Some(_) = link_all(&mut radio, count, links, nodes) else {
        return Err(ReadError::Spelling);
    };
    let (apart, rest) = fly_all(alloc, &mut radio, copies, rest, nodes, next)?;
    Ok((radio, apart, rest))
}
