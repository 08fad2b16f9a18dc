//! The words of a line, and what they say.
ghost use Rattle.std.specs.Prelude.{◌≡◌, ◌≤◌, ◌+◌, ◌==◌, ◌∷◌, [], length, Some, None, IfSome, IfNone};
ghost use Rattle.std.specs.Str.{bytes_eq};
ghost use Rattle.mesh_base.specs.Addresses.{address_of};
ghost use Rattle.std.specs.List.{position_or_len};
ghost use Rattle.mesh_base.specs.Parts.{parts, rest_parts};
ghost use Rattle.mesh_lines.specs.Forms as forms;
ghost use Rattle.mesh_lines.specs.Lines as lines;
ghost use Rattle.mesh_lines.specs.Belows as belows;
ghost use Rattle.mesh_lines.specs.Words.{one_word, two_words, three_words, four_words};

use mesh_base::{Addr, number_up_to};

// How many bytes come before the first `sep`: all of them if there is none.
#[tactic(auto, using(crate::proofs::CutLaws::reached, crate::proofs::CutLaws::ended))]
fn bytes_before(bytes: &[u8], sep: u8) -> usize
    ensures value { result ≡ position_or_len (λ b. b == sep) bytes.now }
    ensures within { result ≤ length bytes.now }
{
    let mut at: usize = 0;
    'bytes: while at < bytes.len() {
        if bytes[at] == sep {
            return at;
        }
        at += 1;
    }
    at
}

/// What comes before the first `sep`, and what comes after it: None if there is no `sep`. The texts
/// are short: to go through them byte by byte costs less than a search that is made for long texts.
#[tactic(auto, using(crate::proofs::CutLaws::cut_there, crate::proofs::CutLaws::not_cut))]
pub fn cut(bytes: &[u8], sep: u8) -> (&[u8], Option<&[u8]>)
    ensures parts { parts sep bytes.now ≡ result.0.now ∷ rest_parts sep result.1 }
    ensures length { IfSome result.1
        (λ rest. length result.0.now + 1 + length rest.now ≡ length bytes.now) }
{
    let at = bytes_before(bytes, sep);
    if at < bytes.len() {
        (&bytes[..at], Some(&bytes[at + 1..]))
    } else {
        (bytes, None)
    }
}

// The only part of a text that has one.
fn one(words: Option<&[u8]>, sep: u8) -> Option<&[u8]>
    ensures some { IfSome result (λ w. rest_parts sep words.entry ≡ w.now ∷ []) }
    ensures none { IfNone result (one_word (rest_parts sep words.entry) ≡ None) }
{
    let Some(words) = words else {
        return None;
    };
    match cut(words, sep) {
        (word, None) => Some(word),
        (_, Some(_)) => None,
    }
}

/// The parts of a text that has exactly two.
pub fn two(words: Option<&[u8]>, sep: u8) -> Option<(&[u8], &[u8])>
    ensures some { IfSome result (λ w. rest_parts sep words.entry ≡ w.0.now ∷ w.1.now ∷ []) }
    ensures none { IfNone result (two_words (rest_parts sep words.entry) ≡ None) }
{
    let (first, rest) = cut(words?, sep);
    let second = one(rest, sep)?;
    Some((first, second))
}

/// The parts of a text that has exactly three.
pub fn three(words: Option<&[u8]>, sep: u8) -> Option<(&[u8], &[u8], &[u8])>
    ensures some { IfSome result
        (λ w. rest_parts sep words.entry ≡ w.0.now ∷ w.1.now ∷ w.2.now ∷ []) }
    ensures none { IfNone result (three_words (rest_parts sep words.entry) ≡ None) }
{
    let (first, rest) = cut(words?, sep);
    let (second, third) = two(rest, sep)?;
    Some((first, second, third))
}

/// The parts of a text that has exactly four.
pub fn four(words: Option<&[u8]>, sep: u8) -> Option<(&[u8], &[u8], &[u8], &[u8])>
    ensures some { IfSome result
        (λ w. rest_parts sep words.entry ≡ w.0.now ∷ w.1.now ∷ w.2.now ∷ w.3.now ∷ []) }
    ensures none { IfNone result (four_words (rest_parts sep words.entry) ≡ None) }
{
    let (first, rest) = cut(words?, sep);
    let (second, third, fourth) = three(rest, sep)?;
    Some((first, second, third, fourth))
}

/// The address that a word denotes.
pub fn address(word: &[u8]) -> Option<u32>
    ensures { result ≡ address_of word.now }
{
    let addr = Addr::parse(word)?;
    Some(addr.0)
}

/// The word is an address.
pub fn is_address(word: &[u8]) -> bool
    ensures { result ≡ forms.is_address word.now }
{
    address(word).is_some()
}

/// The number of a copy.
pub fn number(word: &[u8]) -> Option<u64>
    ensures { result ≡ belows.number_of word.now }
{
    match number_up_to(word, u64::MAX) {
        Some(n) if n > 0 => Some(n),
        _ => None,
    }
}

/// The number of a copy, if it is the only word. A number has no space, so none is looked for.
#[tactic(auto, using(crate::proofs::WordLaws::only_number))]
pub fn number_in(words: Option<&[u8]>) -> Option<u64>
    ensures { result ≡ belows.number_in (rest_parts 32 words.entry) }
{
    number(words?)
}

/// An address, if it is the only word. An address has no space, so none is looked for.
#[tactic(auto, using(crate::proofs::WordLaws::only_address))]
pub fn address_in(words: Option<&[u8]>) -> Option<u32>
    ensures { result ≡ lines.address_in (rest_parts 32 words.entry) }
{
    address(words?)
}

/// The number of a new copy, and the copy's receiver.
pub fn copy_words(words: Option<&[u8]>) -> Option<(u64, u32)>
    ensures { result ≡ belows.copy_words (rest_parts 32 words.entry) }
{
    let (id, to) = cut(words?, b' ');
    let id = number(id)?;
    let to = address_in(to)?;
    Some((id, to))
}

/// A sender and a receiver.
pub fn ends(words: Option<&[u8]>) -> Option<(u32, u32)>
    ensures { result ≡ lines.ends_of (rest_parts 32 words.entry) }
{
    let (from, to) = cut(words?, b' ');
    let from = address(from)?;
    let to = address_in(to)?;
    Some((from, to))
}

/// The word is this one.
pub fn is(word: &[u8], name: &[u8]) -> bool
    ensures { result ≡ bytes_eq word.now name.now }
{
    word == name
}

/// The first word of a line that makes or cuts a link.
pub fn is_link(word: &[u8]) -> bool
    ensures { result ≡ belows.is_link word.now }
{
    is(word, b"link") || is(word, b"cut")
}

/// The first word of an event that may send a packet to another node.
pub fn is_sending(word: &[u8]) -> bool
    ensures { result ≡ lines.is_sending word.now }
{
    is(word, b"send") || is(word, b"ask")
}

/// The first of two addresses, if they are the only words.
pub fn sender(words: Option<&[u8]>) -> Option<u32>
    ensures { result ≡ lines.sender (rest_parts 32 words.entry) }
{
    let (from, _) = ends(words)?;
    Some(from)
}

/// The node of an event that may cast a packet.
pub fn caster(word: &[u8], words: Option<&[u8]>) -> Option<u32>
    ensures { result ≡ lines.caster word.now (rest_parts 32 words.entry) }
{
    if is(word, b"turn") {
        return address_in(words);
    }
    if is_sending(word) {
        return sender(words);
    }
    None
}
