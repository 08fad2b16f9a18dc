//! The words of a line, and what each may be.
ghost use Rattle.std.specs.Prelude.{◌≡◌, ◌<◌, ◌≤◌, ◌+◌, length, IfOk, IfErr, Some, None};
ghost use Rattle.std.specs.Str.{bytes_eq};
ghost use Rattle.mesh_base.specs.Bounds.{slice_end};
ghost use Rattle.mesh_base.specs.Addresses.{address_of};
ghost use Rattle.mesh_base.specs.Numbers as numbers;
ghost use Rattle.mesh_grammar.specs.Words as words;
ghost use Rattle.mesh_script.specs.Arguments.{spanned_of};

use mesh_base::{Addr, LONGEST_DATUM, Mesh, number_up_to};
use mesh_grammar::{LineFault, Span};

/// An address that a line names, and where in the line it is.
#[derive(Clone, Copy)]
pub struct SpannedAddr {
    pub addr: Addr,
    pub span: Span,
}

/// Whether a line is empty or a remark.
pub fn is_blank(line: &[u8]) -> bool
    ensures { result ≡ words.is_blank line.now }
{
    match line {
        [] => true,
        [first, ..] => *first == b'#',
    }
}

/// Whether a word is this one. A `match` on words would test each byte on its own, and its proof
/// would need a case for each.
#[inline(always)]
#[tactic(auto, using(crate::proofs::SameBytes::other_length, crate::proofs::SameBytes::other_byte, crate::proofs::SameBytes::same_bytes))]
pub fn is_word<const N: usize>(word: &[u8], this: &[u8; N]) -> bool
    ensures { result ≡ bytes_eq word.now this.now }
{
    if word.len() != N {
        return false;
    }
    for i in 0..N {
        if word[i] != this[i] {
            return false;
        }
    }
    true
}

fn are_printable(bytes: &[u8]) -> bool
    ensures { result ≡ words.are_printable bytes.now }
{
    bytes.iter().all(|b| 32 <= *b && *b <= 126)
}

fn is_text(bytes: &[u8]) -> bool
    ensures { result ≡ words.is_text bytes.now }
{
    if bytes.is_empty() || bytes.len() > LONGEST_DATUM {
        return false;
    }
    are_printable(bytes)
}

/// The span of a word that begins at `at`.
pub fn span_at(at: usize, word: &[u8]) -> Span
    requires { at + length word.now < slice_end }
    ensures { result ≡ words.span_at at word.now }
{
    Span {
        from: at,
        to: at + word.len(),
    }
}

/// Where the word after this one begins: there is one space between them.
pub fn next_at(at: usize, word: &[u8]) -> usize
    requires { at + length word.now < slice_end }
    ensures { result ≡ words.next_at at word.now }
{
    at + word.len() + 1
}

/// A word as an address. The mesh affects only how long this takes: an address that begins as most
/// addresses of the mesh do is read faster.
#[inline(always)]
pub fn address(mesh: &Mesh, at: usize, word: &[u8]) -> Result<SpannedAddr, LineFault>
    requires { at + length word.now < slice_end }
    ensures value { IfOk result (λ a. address_of word.now ≡ Some (spanned_of a).address) }
    ensures span { IfOk result (λ a. (spanned_of a).span ≡ words.span_at at word.now) }
    ensures none { IfErr result (λ f. address_of word.now ≡ None) }
    ensures fault { IfErr result (λ f. f ≡ LineFault.BadAddress (words.span_at at word.now)) }
{
    let span = span_at(at, word);
    match mesh.parse_addr(word) {
        Some(addr) => Ok(SpannedAddr { addr, span }),
        None => Err(LineFault::BadAddress(span)),
    }
}

/// A word as a number from 1 to `most`.
#[inline(always)]
pub fn number(most: u64, at: usize, word: &[u8]) -> Result<u64, LineFault>
    requires { at + length word.now < slice_end }
    ensures value { IfOk result
        (λ n. numbers.positive (numbers.number_up_to most word.now) ≡ Some n) }
    ensures within { IfOk result (λ n. n ≤ most) }
    ensures none { IfErr result
        (λ f. numbers.positive (numbers.number_up_to most word.now) ≡ None) }
    ensures fault { IfErr result (λ f. f ≡ LineFault.BadNumber (words.span_at at word.now)) }
{
    match number_up_to(word, most) {
        Some(n) if n > 0 => Ok(n),
        _ => Err(LineFault::BadNumber(span_at(at, word))),
    }
}

/// The bytes from `at` to the line's end, as a datum's text.
pub fn text(at: usize, bytes: &[u8]) -> Result<&[u8], LineFault>
    requires { at + length bytes.now < slice_end }
    ensures value { IfOk result (λ text. words.text_of bytes.now ≡ Some text.now) }
    ensures none { IfErr result (λ f. words.text_of bytes.now ≡ None) }
    ensures fault { IfErr result (λ f. f ≡ LineFault.BadText (words.span_at at bytes.now)) }
{
    if is_text(bytes) {
        Ok(bytes)
    } else {
        Err(LineFault::BadText(span_at(at, bytes)))
    }
}
