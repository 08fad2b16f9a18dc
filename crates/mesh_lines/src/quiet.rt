//! The lines that say nothing about copies.
ghost use Rattle.std.specs.Prelude.{◌≡◌};
ghost use Rattle.mesh_base.specs.Parts.{rest_parts};
ghost use Rattle.mesh_lines.specs.Lines as lines;

use crate::form::{Field, are, is_body, text_behind};
use crate::words::{address_in, cut, is};

/// The greatest hop count.
pub const MOST_HOPS: u64 = 255;

// The greatest first number, and the greatest number of an entry or a request.
const NUMBER: u64 = 4294967295;

// Any number.
const COUNT: Field = Field::UpTo(u64::MAX);

// ---- below an event

/// A line `idle`.
pub fn is_idle(word: &[u8], words: Option<&[u8]>) -> bool
    ensures { result ≡ lines.is_idle word.now (rest_parts 32 words.entry) }
{
    is(word, b"idle") && are(&[], words)
}

// The kind of what a turn takes, before the neighbour or destination.
fn is_taken_kind(word: &[u8]) -> bool
    ensures { result ≡ lines.is_taken_kind word.now }
{
    is(word, b"rreq")
        || is(word, b"rrep")
        || is(word, b"rerr")
        || is(word, b"data")
        || is(word, b"new")
}

/// The words after `took`.
pub fn is_taken(words: Option<&[u8]>) -> bool
    ensures { result ≡ lines.is_taken (rest_parts 32 words.entry) }
{
    let Some(words) = words else {
        return false;
    };
    let (kind, who) = cut(words, b' ');
    is_taken_kind(kind) && address_in(who).is_some()
}

// The words after `delivered` or `dropped`.
fn is_datum(words: Option<&[u8]>) -> bool
    ensures { result ≡ lines.is_datum (rest_parts 32 words.entry) }
{
    match text_behind(words) {
        Some(body) => is_body(body),
        None => false,
    }
}

/// A line below an event that may cast a packet, except `took`, `sent` and `copy`.
pub fn is_of_cast(word: &[u8], words: Option<&[u8]>) -> bool
    ensures { result ≡ lines.is_of_cast word.now (rest_parts 32 words.entry) }
{
    if is(word, b"delivered") || is(word, b"dropped") {
        return is_datum(words);
    }
    if is(word, b"broken") {
        return are(&[Field::Address], words);
    }
    is_idle(word, words)
}

/// A line below a loss, except the one that says which copy was lost.
pub fn is_of_loss(word: &[u8], words: Option<&[u8]>) -> bool
    ensures { result ≡ lines.is_of_loss word.now (rest_parts 32 words.entry) }
{
    if is(word, b"dropped") {
        return is_datum(words);
    }
    is_idle(word, words)
}

// ---- below what shows

// The words after `entry`.
fn is_entry(words: Option<&[u8]>) -> bool
    ensures { result ≡ lines.is_entry (rest_parts 32 words.entry) }
{
    let fields = [
        Field::Address,
        Field::UpTo(NUMBER),
        Field::Known,
        Field::Flag,
        Field::Positive(MOST_HOPS),
        Field::Address,
        Field::Precursors,
    ];
    are(&fields, words)
}

/// A line below `show`.
pub fn is_of_node(word: &[u8], words: Option<&[u8]>) -> bool
    ensures { result ≡ lines.is_of_node word.now (rest_parts 32 words.entry) }
{
    if is(word, b"entry") {
        return is_entry(words);
    }
    if is(word, b"asked") {
        return are(&[Field::Address, Field::UpTo(NUMBER)], words);
    }
    if is(word, b"sn") {
        return are(&[Field::Positive(NUMBER)], words);
    }
    if is(word, b"waits") {
        return are(
            &[Field::Address, Field::Request, Field::Positive(u64::MAX)],
            words,
        );
    }
    is(word, b"inbox") && are(&[COUNT], words)
}

/// A line below `route`.
pub fn is_of_route(word: &[u8], words: Option<&[u8]>) -> bool
    ensures { result ≡ lines.is_of_route word.now (rest_parts 32 words.entry) }
{
    if is(word, b"arrived") {
        return are(&[COUNT], words);
    }
    is(word, b"stuck") && are(&[Field::Address, COUNT], words)
}
