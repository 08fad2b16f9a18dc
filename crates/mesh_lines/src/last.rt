//! The last line of a printed text.
ghost use Rattle.std.specs.Prelude.{◌≡◌, ◌≤◌, ◌+◌, length};
ghost use Rattle.mesh_base.specs.declared.limits.TheConstants.{LINE_CAPACITY};
ghost use Rattle.mesh_base.specs.Parts.{parts, rest_parts};
ghost use Rattle.mesh_lines.specs.Lines as lines;

use crate::form::{Field, are};
use crate::words::{caster, cut, is, three, two};
use mesh_base::{
    LINE_CAPACITY, LONGEST_INPUT, LONGEST_LINE, LineBuf, MOST_NODES, push_number, push_text,
};

// Any number.
const COUNT: Field = Field::UpTo(u64::MAX);

// How many words follow `done` if no copy of data was doubled.
const PLAIN: usize = 16;

/// The words after `done`.
pub fn is_summary(words: Option<&[u8]>) -> bool
    ensures { result ≡ lines.is_summary (rest_parts 32 words.entry) }
{
    let copied = [
        Field::Events,
        COUNT,
        Field::Idle,
        COUNT,
        Field::Given,
        COUNT,
        Field::Delivered,
        COUNT,
        Field::Waiting,
        COUNT,
        Field::Queued,
        COUNT,
        Field::Flying,
        COUNT,
        Field::Lost,
        COUNT,
        Field::Copied,
        Field::Positive(u64::MAX),
    ];
    are(&copied[..PLAIN], words) || are(&copied, words)
}

// `line N`.
fn is_numbered(text: &[u8]) -> bool
    ensures { result ≡ lines.is_numbered text.now }
{
    are(&[Field::Line, Field::Positive(u64::MAX)], Some(text))
}

// An event that may cast a packet, after a space.
fn is_cast(text: &[u8]) -> bool
    ensures { result ≡ lines.is_cast (parts 32 text.now) }
{
    let (front, rest) = cut(text, b' ');
    let Some(rest) = rest else {
        return false;
    };
    let (word, words) = cut(rest, b' ');
    is(front, b"") && caster(word, words).is_some()
}

fn is_counter(text: &[u8]) -> bool
    ensures { result ≡ lines.is_counter text.now }
{
    is(text, b" hops") || is(text, b" number") || is(text, b" id")
}

#[tactic(auto, using(crate::proofs::WordLaws::not_full))]
fn is_full_by(clauses: Option<&[u8]>) -> bool
    ensures { result ≡ lines.is_full_by (rest_parts 58 clauses.entry) }
{
    match three(clauses, b':') {
        Some((line, event, counter)) => {
            is_numbered(line) && is_cast(event) && is_counter(counter)
        }
        None => false,
    }
}

/// The words after `full`.
#[tactic(auto, using(crate::proofs::WordLaws::full_by))]
pub fn is_full(words: Option<&[u8]>) -> bool
    ensures { result ≡ lines.is_full (rest_parts 32 words.entry) }
{
    is_full_by(words)
}

// A limit that was passed: a label, the limit, and what it counts.
fn is_limit(label: &[u8], most: usize, what: &[u8], text: &[u8]) -> bool
    requires { length label.now + 20 + length what.now ≤ LINE_CAPACITY }
    ensures { result ≡ lines.is_limit label.now most what.now text.now }
{
    let mut wanted = LineBuf::new();
    push_text(&mut wanted, label);
    push_number(&mut wanted, most as u64);
    push_text(&mut wanted, what);
    is(text, wanted.as_slice())
}

fn is_past_limit(text: &[u8]) -> bool
    ensures { result ≡ lines.is_past_limit text.now }
{
    is_limit(b" more than ", MOST_NODES, b" nodes", text)
        || is_limit(b" line longer than ", LONGEST_LINE, b" bytes", text)
        || is_limit(b" input longer than ", LONGEST_INPUT, b" bytes", text)
}

// A reason why a line was refused that names no bytes of the line.
fn is_whole_fault(text: &[u8]) -> bool
    ensures { result ≡ lines.is_whole_fault text.now }
{
    is(text, b" wrong number of words")
        || is(text, b" node after the first event")
        || is(text, b" no node yet")
        || is(text, b" link to itself")
        || is_past_limit(text)
}

// This fault, and then which bytes of the line it is about.
fn is_fault_at(text: &[u8], fault: &[u8]) -> bool
    ensures { result ≡ lines.is_fault_at text.now fault.now }
{
    match text.strip_prefix(fault) {
        Some(bytes) => are(&[COUNT, Field::To, COUNT], Some(bytes)),
        None => false,
    }
}

// A fault of a word, and which bytes of the line it is about.
fn is_word_fault(text: &[u8]) -> bool
    ensures { result ≡ lines.is_word_fault text.now }
{
    is_fault_at(text, b" no command at bytes ")
        || is_fault_at(text, b" no address at bytes ")
        || is_fault_at(text, b" no number at bytes ")
        || is_fault_at(text, b" no text at bytes ")
}

// A fault of a node, and which bytes of the line it is about.
fn is_node_fault(text: &[u8]) -> bool
    ensures { result ≡ lines.is_node_fault text.now }
{
    is_fault_at(text, b" node named twice at bytes ")
        || is_fault_at(text, b" unknown node at bytes ")
}

// Why a line was refused.
fn is_why(text: &[u8]) -> bool
    ensures { result ≡ lines.is_why text.now }
{
    is_whole_fault(text) || is_word_fault(text) || is_node_fault(text)
}

#[tactic(auto, using(crate::proofs::WordLaws::not_refused))]
fn is_refusal_by(clauses: Option<&[u8]>) -> bool
    ensures { result ≡ lines.is_refusal_by (rest_parts 58 clauses.entry) }
{
    match two(clauses, b':') {
        Some((line, why)) => is_numbered(line) && is_why(why),
        None => false,
    }
}

/// The words after `bad`.
#[tactic(auto, using(crate::proofs::WordLaws::refusal_by))]
pub fn is_refusal(words: Option<&[u8]>) -> bool
    ensures { result ≡ lines.is_refusal (rest_parts 32 words.entry) }
{
    is_refusal_by(words)
}
