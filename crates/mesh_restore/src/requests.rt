//! The requests that a node has seen.
ghost use Rattle.std.specs.Prelude.{◌≡◌, IfOk, length};
ghost use Rattle.mesh_checkpoint.specs.Formats.{get_rising};
ghost use Rattle.mesh_checkpoint.specs.Checkpoint as model;
ghost use Rattle.mesh_restore.specs.Reading.{Reads};
ghost use Rattle.aodv_model.specs.Pairs.{pairs_in};

use crate::error::ReadError;
use aodv_asked::Asked;
use mesh_checkpoint::END32;
use mesh_checkpoint::numbers::number32;
use mesh_checkpoint::reading::read_request;
use std::alloc::Global;

// `count` requests, by rising originator and id, and the bytes after them.
fn pairs(alloc: Global, count: u32, bytes: &[u8], nodes: u32) -> Result<(Asked, &[u8]), ReadError>
    ensures value { Reads (λ x. (pairs_in x.0.pairs, x.1.now)) result
        (get_rising model.request_key (model.request nodes).get count 0 bytes.now) }
    ensures nodes { IfOk result (λ x. length x.0.rooms ≡ nodes) }
{
    let mut asked = Asked::new(alloc, nodes as usize)?;
    let mut rest = bytes;
    let mut low = 0;
    for _ in 0..count {
        let Some((request, behind)) = read_request(rest, nodes) else {
            return Err(ReadError::Spelling);
        };
        let key = request.key();
        if key < low {
            return Err(ReadError::Spelling);
        }
        low = key + 1;
        asked.make_room(request.origin)?;
        asked.insert(request.origin, request.id);
        rest = behind;
    }
    Ok((asked, rest))
}

/// The requests at the start of the bytes, in a mesh of this many nodes, and the bytes after them.
pub(crate) fn requests(alloc: Global, bytes: &[u8], nodes: u32) -> Result<(Asked, &[u8]), ReadError>
    ensures value { Reads (λ x. (pairs_in x.0.pairs, x.1.now)) result
        ((model.asked_format nodes).get bytes.now) }
    ensures nodes { IfOk result (λ x. length x.0.rooms ≡ nodes) }
{
    let Some((count, rest)) = number32(bytes, 0, END32) else {
        return Err(ReadError::Spelling);
    };
    pairs(alloc, count, rest, nodes)
}
