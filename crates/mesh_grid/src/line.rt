//! The lines that put a node at a place.
ghost use Rattle.std.specs.Prelude.{◌≡◌, ◌<◌, ◌+◌, length, IfOk, IfErr, IfSome, Some, None};
ghost use Rattle.mesh_base.specs.Bounds.{slice_end};
ghost use Rattle.mesh_base.specs.Numbers as numbers;
ghost use Rattle.mesh_base.specs.Parts.{rest_parts};
ghost use Rattle.mesh_grammar.specs.Words as words;
ghost use Rattle.mesh_grid.specs.Lines as lines;

use crate::place::{GREATEST_PLACE, Place};
use mesh_base::{Addr, Mesh, cut, number_up_to};
use mesh_grammar::{LineFault, Span};
use mesh_script::{is_word, next_at, span_at};

/// A node comes to a place: for the first time by `place`, later by `move`.
#[derive(Clone, Copy, PartialEq, Eq)]
pub struct Placing {
    pub first: bool,
    pub node: usize,
    pub place: Place,
}

// A word as a coordinate.
fn coordinate(at: usize, word: &[u8]) -> Result<u32, LineFault>
    requires { at + length word.now < slice_end }
    ensures value { IfOk result (λ n. numbers.number_up_to GREATEST_PLACE word.now ≡ Some n) }
    ensures none { IfErr result (λ f. numbers.number_up_to GREATEST_PLACE word.now ≡ None) }
    ensures fault { IfErr result (λ f. f ≡ LineFault.BadNumber (words.span_at at word.now)) }
{
    match number_up_to(word, GREATEST_PLACE) {
        Some(n) => Ok(n as u32),
        None => Err(LineFault::BadNumber(span_at(at, word))),
    }
}

// The node of the mesh that a line puts at a place.
fn placing_in(
    mesh: &Mesh,
    first: bool,
    addr: Addr,
    span: Span,
    place: Place,
) -> Result<Option<Placing>, LineFault>
    ensures value { result ≡ lines.placing_in mesh.now first
        (record { address = addr.0; span = span }) place }
    ensures within { IfOk result (λ said. IfSome said (λ p. p.node < length mesh.now)) }
{
    if mesh.is_empty() {
        return Err(LineFault::Early);
    }
    match mesh.index_of(addr) {
        Some(node) => Ok(Some(Placing { first, node, place })),
        None => Err(LineFault::Unknown(span)),
    }
}

// `ADDR X Y`, which begins at `at`.
#[tactic(auto, using(crate::proofs::Words::four_words))]
fn placing_at(
    mesh: &Mesh,
    first: bool,
    at: usize,
    arguments: Option<&[u8]>,
) -> Result<Option<Placing>, LineFault>
    requires { IfSome arguments (λ rest. at + length rest.now < slice_end) }
    ensures value { result ≡ lines.placing_at mesh.now first at (rest_parts 32 arguments.entry) }
    ensures within { IfOk result (λ said. IfSome said (λ p. p.node < length mesh.now)) }
{
    let Some(rest) = arguments else {
        return Err(LineFault::Count);
    };
    let (node, rest) = cut(rest, b' ');
    let Some(rest) = rest else {
        return Err(LineFault::Count);
    };
    let (x, rest) = cut(rest, b' ');
    let Some(rest) = rest else {
        return Err(LineFault::Count);
    };
    let (y, more) = cut(rest, b' ');
    if let Some(_more) = more {
        return Err(LineFault::Count);
    }
    let x_at = next_at(at, node);
    let y_at = next_at(x_at, x);
    let Some(addr) = Addr::parse(node) else {
        return Err(LineFault::BadAddress(span_at(at, node)));
    };
    let x = coordinate(x_at, x)?;
    let y = coordinate(y_at, y)?;
    placing_in(mesh, first, addr, span_at(at, node), Place { x, y })
}

/// What a line says of a node's place: `place ADDR X Y` or `move ADDR X Y`. None for any other
/// line, which means what it means in a schedule; but `link` and `cut` are no commands here.
#[tactic(auto, unfolding(crate::specs::Lines::placing_of))]
pub fn placing_of(bytes: &[u8], mesh: &Mesh) -> Result<Option<Placing>, LineFault>
    ensures value { result ≡ lines.placing_of mesh.now bytes.now }
    ensures within { IfOk result (λ said. IfSome said (λ p. p.node < length mesh.now)) }
{
    let (word, arguments) = cut(bytes, b' ');
    // A slice has fewer than 2^63 bytes: no offset in it overflows.
    let _length = bytes.len();
    match word {
        _ if is_word(word, b"place") => placing_at(mesh, true, next_at(0, word), arguments),
        _ if is_word(word, b"move") => placing_at(mesh, false, next_at(0, word), arguments),
        _ if is_word(word, b"link") => Err(LineFault::Word(span_at(0, word))),
        _ if is_word(word, b"cut") => Err(LineFault::Word(span_at(0, word))),
        _ => Ok(None),
    }
}
