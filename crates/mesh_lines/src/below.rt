//! Which lines may be below a line.
ghost use Rattle.std.specs.Prelude.{◌≡◌, IfSome};
ghost use Rattle.mesh_base.specs.Parts.{rest_parts};
ghost use Rattle.mesh_lines.specs.Lines as lines;
ghost use Rattle.mesh_lines.specs.Belows as belows;
ghost use Rattle.mesh_lines.specs.Packets.{IsShortBelow};

use crate::form::{Field, are, is_text, text_behind};
use crate::last::{is_full, is_refusal, is_summary};
use crate::packet::SharedPacket;
use crate::words::{address_in, is, is_link, is_sending, number_in, sender};
use mesh_base::MOST_EVENTS;

/// The greatest coordinate of a place.
pub const GREATEST_PLACE: u64 = 1000000;

/// What may be below a line.
#[derive(Drop)]
pub enum Below {
    /// No line.
    Nothing,
    /// `idle`, if a link hasn't changed.
    Link,
    /// What an event of this node did that may cast a packet; and the packet, once a line has said
    /// that it is cast.
    Casts(u32, Option<SharedPacket>),
    /// That the copy of this number was heard, or `idle`.
    Delivers(u64),
    /// That the copy of this number was lost, a datum that is dropped, or `idle`.
    Loses(u64),
    /// The copy that doubles the copy of this number, or `idle`.
    Doubles(u64),
    /// A node's tables.
    Node,
    /// The end of a route.
    Route,
    /// The copies in flight.
    Flight,
    /// The links that are made and cut as a node comes to a place, or `idle`.
    Place,
}

fn is_datum(words: Option<&[u8]>) -> bool
    ensures { result ≡ belows.is_given (rest_parts 32 words.entry) }
{
    match text_behind(words) {
        Some(text) => is_text(text),
        None => false,
    }
}

/// What may be below the event that a line is. None if the line isn't an event.
pub fn event_by(word: &[u8], words: Option<&[u8]>) -> Option<Below>
    ensures value { result ≡ belows.event_by word.now (rest_parts 32 words.entry) }
    ensures short { IfSome result IsShortBelow }
{
    if is(word, b"turn") {
        return Some(Below::Casts(address_in(words)?, None));
    }
    if is(word, b"deliver") {
        return Some(Below::Delivers(number_in(words)?));
    }
    if is_sending(word) {
        return Some(Below::Casts(sender(words)?, None));
    }
    if is(word, b"lose") {
        return Some(Below::Loses(number_in(words)?));
    }
    if is(word, b"copy") {
        return Some(Below::Doubles(number_in(words)?));
    }
    if is_link(word) && are(&[Field::Address, Field::Address], words) {
        return Some(Below::Link);
    }
    if is(word, b"data") && is_datum(words) {
        return Some(Below::Nothing);
    }
    None
}

// A line that is no event and has no lines below it.
fn is_alone(word: &[u8], words: Option<&[u8]>) -> bool
    ensures { result ≡ lines.is_alone word.now (rest_parts 32 words.entry) }
{
    if is(word, b"auto") {
        return are(&[Field::Positive(MOST_EVENTS)], words)
            || are(&[Field::Did, Field::UpTo(MOST_EVENTS)], words);
    }
    if is(word, b"node") {
        return are(
            &[Field::Address, Field::Sn, Field::Positive(4294967295)],
            words,
        );
    }
    if is(word, b"done") {
        return is_summary(words);
    }
    if is(word, b"full") {
        return is_full(words);
    }
    is(word, b"bad") && is_refusal(words)
}

// A line that gives a place to a node.
fn is_place(word: &[u8], words: Option<&[u8]>) -> bool
    ensures { result ≡ belows.is_place word.now (rest_parts 32 words.entry) }
{
    let fields = [
        Field::Address,
        Field::UpTo(GREATEST_PLACE),
        Field::UpTo(GREATEST_PLACE),
    ];
    (is(word, b"place") || is(word, b"move")) && are(&fields, words)
}

/// What may be below a line that is no event. None if the line has none of the known forms.
pub fn other_by(word: &[u8], words: Option<&[u8]>) -> Option<Below>
    ensures value { result ≡ belows.other_by word.now (rest_parts 32 words.entry) }
    ensures short { IfSome result IsShortBelow }
{
    if is(word, b"show") && are(&[Field::Address], words) {
        return Some(Below::Node);
    }
    if is(word, b"route") && are(&[Field::Address, Field::Address], words) {
        return Some(Below::Route);
    }
    if is(word, b"flight") && are(&[], words) {
        return Some(Below::Flight);
    }
    if is_place(word, words) {
        return Some(Below::Place);
    }
    if is_alone(word, words) {
        return Some(Below::Nothing);
    }
    None
}
