//! The forms of a line's words.
ghost use Rattle.std.specs.Prelude.{◌≡◌, Some, None, IfSome, IfNone, is_some};
ghost use Rattle.std.specs.List.{list_all};
ghost use Rattle.mesh_base.specs.Parts.{parts, rest_parts};
ghost use Rattle.mesh_base.specs.Numbers as numbers;
ghost use Rattle.mesh_grammar.specs.Words as grammar;
ghost use Rattle.mesh_lines.specs.Forms as forms;

use crate::words::{address, cut, is, is_address};
use mesh_base::{LONGEST_DATUM, LONGEST_PACKET, number_up_to};

/// What a word of a line may be.
#[derive(Clone, Copy)]
pub enum Field {
    /// An address.
    Address,
    /// Addresses in rising order, joined by commas, or `-`.
    Precursors,
    /// A number up to this one.
    UpTo(u64),
    /// A number from 1 up to this one.
    Positive(u64),
    /// `kno` or `unk`.
    Known,
    /// `val` or `inv`.
    Flag,
    /// `req` or `noreq`.
    Request,
    /// `sn`.
    Sn,
    /// `did`.
    Did,
    /// `line`.
    Line,
    /// `to`.
    To,
    /// `events`.
    Events,
    /// `idle`.
    Idle,
    /// `given`.
    Given,
    /// `delivered`.
    Delivered,
    /// `waiting`.
    Waiting,
    /// `queued`.
    Queued,
    /// `flying`.
    Flying,
    /// `lost`.
    Lost,
    /// `copied`.
    Copied,
}

/// Addresses in rising order, joined by commas.
pub fn are_addresses(word: &[u8]) -> bool
    ensures { result ≡ forms.are_addresses word.now }
{
    let mut rest = word;
    let mut least: u64 = 0;
    'parts: loop {
        let (part, others) = cut(rest, b',');
        let Some(addr) = address(part) else {
            return false;
        };
        let addr = u64::from(addr);
        if addr < least {
            return false;
        }
        least = addr + 1;
        match others {
            Some(next) => rest = next,
            None => return true,
        }
    }
}

fn is_number(word: &[u8], most: u64) -> bool
    ensures { result ≡ is_some (numbers.number_up_to most word.now) }
{
    number_up_to(word, most).is_some()
}

fn is_positive(word: &[u8], most: u64) -> bool
    ensures { result ≡ is_some (numbers.positive (numbers.number_up_to most word.now)) }
{
    match number_up_to(word, most) {
        Some(n) => n > 0,
        None => false,
    }
}

fn is_lower_digit(b: u8) -> bool
    ensures { result ≡ forms.is_lower_digit b }
{
    (b'0' <= b && b <= b'9') || (b'a' <= b && b <= b'f')
}

fn are_lower_digits(word: &[u8]) -> bool
    ensures { result ≡ list_all forms.is_lower_digit word.now }
{
    word.iter().all(|b| (b'0' <= *b && *b <= b'9') || (b'a' <= *b && *b <= b'f'))
}

/// A packet in hexadecimal, in lower case.
pub fn is_hex(word: &[u8]) -> bool
    ensures { result ≡ forms.is_hex word.now }
{
    let size = word.len();
    2 <= size && size <= 2 * LONGEST_PACKET && size % 2 == 0 && are_lower_digits(word)
}

fn fits(field: Field, word: &[u8]) -> bool
    ensures { result ≡ forms.fits field word.now }
{
    match field {
        Field::Address => is_address(word),
        Field::Precursors => is(word, b"-") || are_addresses(word),
        Field::UpTo(most) => is_number(word, most),
        Field::Positive(most) => is_positive(word, most),
        Field::Known => is(word, b"kno") || is(word, b"unk"),
        Field::Flag => is(word, b"val") || is(word, b"inv"),
        Field::Request => is(word, b"req") || is(word, b"noreq"),
        Field::Sn => is(word, b"sn"),
        Field::Did => is(word, b"did"),
        Field::Line => is(word, b"line"),
        Field::To => is(word, b"to"),
        Field::Events => is(word, b"events"),
        Field::Idle => is(word, b"idle"),
        Field::Given => is(word, b"given"),
        Field::Delivered => is(word, b"delivered"),
        Field::Waiting => is(word, b"waiting"),
        Field::Queued => is(word, b"queued"),
        Field::Flying => is(word, b"flying"),
        Field::Lost => is(word, b"lost"),
        Field::Copied => is(word, b"copied"),
    }
}

/// There are as many words as fields, and each word fits its field.
pub fn are(fields: &[Field], words: Option<&[u8]>) -> bool
    ensures { result ≡ forms.are fields.now (rest_parts 32 words.entry) }
{
    let mut rest = words;
    for field in fields {
        let Some(text) = rest else {
            return false;
        };
        let (word, others) = cut(text, b' ');
        if !fits(*field, word) {
            return false;
        }
        rest = others;
    }
    rest.is_none()
}

// ---- texts

fn are_printable(bytes: &[u8]) -> bool
    ensures { result ≡ grammar.are_printable bytes.now }
{
    bytes.iter().all(|b| 32 <= *b && *b <= 126)
}

/// A datum's text, as a schedule gives it.
pub fn is_text(bytes: &[u8]) -> bool
    ensures { result ≡ grammar.is_text bytes.now }
{
    if bytes.is_empty() || bytes.len() > LONGEST_DATUM {
        return false;
    }
    are_printable(bytes)
}

fn is_escape(bytes: &[u8]) -> bool
    ensures { result ≡ forms.is_escape bytes.now }
{
    match bytes {
        [b'x', high, low, ..] => {
            is_lower_digit(*high) && is_lower_digit(*low) && are_printable(&bytes[3..])
        }
        _ => false,
    }
}

fn are_escapes(bytes: &[u8]) -> bool
    ensures { result ≡ list_all forms.is_escape (parts 92 bytes.now) }
{
    let mut rest = bytes;
    'parts: loop {
        let (part, others) = cut(rest, b'\\');
        if !is_escape(part) {
            return false;
        }
        match others {
            Some(next) => rest = next,
            None => return true,
        }
    }
}

/// A datum's bytes, as a printed text shows them.
pub fn is_body(bytes: &[u8]) -> bool
    ensures { result ≡ forms.is_body bytes.now }
{
    if bytes.is_empty() {
        return false;
    }
    let (plain, escapes) = cut(bytes, b'\\');
    if !are_printable(plain) {
        return false;
    }
    match escapes {
        Some(escapes) => are_escapes(escapes),
        None => true,
    }
}

/// The text after two addresses.
#[tactic(auto, using(crate::proofs::WordLaws::text_of_ends, crate::proofs::WordLaws::no_ends))]
pub fn text_behind(words: Option<&[u8]>) -> Option<&[u8]>
    ensures some { IfSome result
        (λ text. forms.text_behind (rest_parts 32 words.entry) ≡ Some text.now) }
    ensures none { IfNone result (forms.text_behind (rest_parts 32 words.entry) ≡ None) }
{
    let (from, rest) = cut(words?, b' ');
    let (to, rest) = cut(rest?, b' ');
    let text = rest?;
    if is_address(from) && is_address(to) {
        Some(text)
    } else {
        None
    }
}
