//! Turns and deliveries: most lines of a long schedule are one of these, and they are read without
//! looking for words.
ghost use Rattle.std.specs.Prelude.{◌≡◌, ◌+◌, ◌<◌, ◌++◌, Bool, codes, length, IfSome, Ok};
ghost use Rattle.mesh_base.specs.Bounds.{slice_end};
ghost use Rattle.mesh_text.specs.Schedule.{line_of};
ghost use Rattle.mesh_script.specs.Seen.{accepted_of};

use crate::line::Line;
use crate::parse::after_nodes;
use crate::words::number;
use mesh_base::{Event, Mesh, are_equal};

// A turn of the node that has this address, if there is one.
#[tactic(auto, using(crate::proofs::FastLines::turn_line))]
fn turn<'a>(word: &[u8], mesh: &Mesh) -> Option<Line<'a>>
    ensures { IfSome result (λ l. (started : Bool) → line_of mesh.now started
        (codes "turn " ++ word.now) ≡ Ok (accepted_of l)) }
{
    let addr = mesh.parse_addr(word)?;
    let node = mesh.index_of(addr)?;
    Some(Line::Step(Event::Turn { node }))
}

// The delivery of the copy with this id, if the mesh has a node.
#[tactic(auto, using(crate::proofs::FastLines::delivery_line))]
fn delivery<'a>(word: &[u8], mesh: &Mesh) -> Option<Line<'a>>
    requires { 8 + length word.now < slice_end }
    ensures { IfSome result (λ l. (started : Bool) → line_of mesh.now started
        (codes "deliver " ++ word.now) ≡ Ok (accepted_of l)) }
{
    after_nodes(mesh).ok()?;
    let id = number(u64::MAX, 8, word).ok()?;
    Some(Line::Step(Event::Deliver { id }))
}

// What follows `turn` and its space, if the bytes begin with them.
#[inline(always)]
fn after_turn(bytes: &[u8]) -> Option<&[u8]>
    ensures { IfSome result (λ word. bytes.now ≡ codes "turn " ++ word.now) }
{
    let (name, rest) = bytes.split_first_chunk::<4>()?;
    match rest {
        [b' ', word @ ..] if are_equal(name, b"turn") => Some(word),
        _ => None,
    }
}

// What follows `deliver` and its space, if the bytes begin with them.
#[inline(always)]
fn after_deliver(bytes: &[u8]) -> Option<&[u8]>
    ensures { IfSome result
        (λ word. bytes.now ≡ codes "deliver " ++ word.now) }
{
    let (front, rest) = bytes.split_first_chunk::<4>()?;
    let (back, word) = rest.split_first_chunk::<4>()?;
    if are_equal(front, b"deli") && are_equal(back, b"ver ") {
        Some(word)
    } else {
        None
    }
}

/// A turn or a delivery that is allowed. None says nothing about the line.
#[inline(always)]
pub fn fast_line<'a>(bytes: &'a [u8], mesh: &Mesh) -> Option<Line<'a>>
    ensures { IfSome result
        (λ l. (started : Bool) → line_of mesh.now started bytes.now ≡ Ok (accepted_of l)) }
{
    // A slice has fewer than 2^63 bytes: no index into it overflows.
    let _length = bytes.len();
    if let Some(word) = after_turn(bytes) {
        return turn(word, mesh);
    }
    if let Some(word) = after_deliver(bytes) {
        return delivery(word, mesh);
    }
    None
}
