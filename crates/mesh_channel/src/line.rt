//! The line `pass NUM`.
ghost use Rattle.std.specs.Prelude.{◌≡◌, ◌≤◌, ◌<◌, ◌+◌, length, IfOk, IfErr, IfSome, Some, None};
ghost use Rattle.mesh_base.specs.Bounds.{slice_end};
ghost use Rattle.mesh_base.specs.Numbers as numbers;
ghost use Rattle.mesh_base.specs.Parts.{rest_parts};
ghost use Rattle.mesh_grammar.specs.Words as words;
ghost use Rattle.mesh_channel.specs.Lines as lines;

use crate::until::MOST_TICKS;
use mesh_base::{Mesh, cut, number_up_to};
use mesh_grammar::LineFault;
use mesh_script::{is_word, next_at, span_at};

// A word as a number of ticks, from 1 to `MOST_TICKS`.
fn ticks(at: usize, word: &[u8]) -> Result<u32, LineFault>
    requires { at + length word.now < slice_end }
    ensures value { IfOk result
        (λ n. numbers.positive (numbers.number_up_to MOST_TICKS word.now) ≡ Some n) }
    ensures none { IfErr result
        (λ f. numbers.positive (numbers.number_up_to MOST_TICKS word.now) ≡ None) }
    ensures fault { IfErr result (λ f. f ≡ LineFault.BadNumber (words.span_at at word.now)) }
{
    match number_up_to(word, u64::from(MOST_TICKS)) {
        Some(n) if n > 0 => Ok(n as u32),
        _ => Err(LineFault::BadNumber(span_at(at, word))),
    }
}

// `NUM`, which begins at `at`.
#[tactic(auto, using(crate::proofs::Passing::two_words))]
fn passing_at(mesh: &Mesh, at: usize, arguments: Option<&[u8]>) -> Result<Option<u32>, LineFault>
    requires { IfSome arguments (λ rest. at + length rest.now < slice_end) }
    ensures { result ≡ lines.passing_at mesh.now at (rest_parts 32 arguments.entry) }
{
    let Some(rest) = arguments else {
        return Err(LineFault::Count);
    };
    let (word, more) = cut(rest, b' ');
    if let Some(_more) = more {
        return Err(LineFault::Count);
    }
    let n = ticks(at, word)?;
    if mesh.is_empty() {
        return Err(LineFault::Early);
    }
    Ok(Some(n))
}

/// How many ticks a line lets pass: `pass NUM`. None for any other line, which means what it means
/// in a schedule.
#[tactic(auto, unfolding(crate::specs::Lines::passing_of))]
pub fn passing_of(bytes: &[u8], mesh: &Mesh) -> Result<Option<u32>, LineFault>
    ensures { result ≡ lines.passing_of mesh.now bytes.now }
{
    let (word, arguments) = cut(bytes, b' ');
    // A slice has fewer than 2^63 bytes: no index into it overflows.
    let _length = bytes.len();
    if is_word(word, b"pass") {
        passing_at(mesh, next_at(0, word), arguments)
    } else {
        Ok(None)
    }
}
