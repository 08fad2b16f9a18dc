//! The words of an entry line.
ghost use Rattle.std.specs.Prelude.{◌≡◌, ◌∷◌, [], Option, Some, None, IfSome, IfNone, is_some};
ghost use Rattle.std.specs.List.{list_all};
ghost use Rattle.mesh_base.specs.Parts.{parts};
ghost use Rattle.mesh_base.specs.Addresses.{address_of};
ghost use Rattle.mesh_base.specs.Numbers.{number_up_to, positive};
ghost use Rattle.mesh_tables.specs.Printed as printed;
ghost use Rattle.mesh_tables.specs.Kept.{words_in};

use crate::row::Row;
use aodv_model::{Flag, Known};
use mesh_base::{Addr, cut, number_up_to};

fn known(word: &[u8]) -> Option<Known>
    ensures { result ≡ printed.known_of word.now }
{
    match word {
        b"kno" => Some(Known::Kno),
        b"unk" => Some(Known::Unk),
        _ => None,
    }
}

fn flag(word: &[u8]) -> Option<Flag>
    ensures { result ≡ printed.flag_of word.now }
{
    match word {
        b"val" => Some(Flag::Val),
        b"inv" => Some(Flag::Inv),
        _ => None,
    }
}

fn address(word: &[u8]) -> Option<u32>
    ensures { result ≡ address_of word.now }
{
    let addr = Addr::parse(word)?;
    Some(addr.0)
}

fn number(word: &[u8]) -> Option<u32>
    ensures { result ≡ number_up_to 4294967295 word.now }
{
    let n = number_up_to(word, u64::from(u32::MAX))?;
    Some(n as u32)
}

fn hops(word: &[u8]) -> Option<u8>
    ensures { result ≡ positive (number_up_to 255 word.now) }
{
    match number_up_to(word, u64::from(u8::MAX)) {
        Some(n) if n > 0 => Some(n as u8),
        _ => None,
    }
}

fn is_address(word: &[u8]) -> bool
    ensures { result ≡ is_some (address_of word.now) }
{
    Addr::parse(word).is_some()
}

// Addresses joined by commas.
fn are_addresses(word: &[u8]) -> bool
    ensures { result ≡ list_all (λ part. is_some (address_of part)) (parts 44 word.now) }
{
    let mut rest = word;
    'parts: loop {
        let (part, others) = cut(rest, b',');
        if !is_address(part) {
            return false;
        }
        match others {
            Some(next) => rest = next,
            None => return true,
        }
    }
}

// A list of precursors: `-`, or addresses joined by commas.
fn is_list(word: &[u8]) -> bool
    ensures { result ≡ printed.is_list word.now }
{
    word == b"-".as_slice() || are_addresses(word)
}

// The entry that these words give.
#[tactic(auto, unfolding(crate::specs::Printed::row_of))]
fn row_of(dsn: &[u8], dsk: &[u8], val: &[u8], count: &[u8], hop: &[u8]) -> Option<Row>
    ensures { result ≡ printed.row_of dsn.now dsk.now val.now count.now hop.now }
{
    let dsn = number(dsn)?;
    let known = known(dsk)?;
    let flag = flag(val)?;
    let hops = hops(count)?;
    let next = address(hop)?;
    Some(Row {
        dsn,
        known,
        flag,
        hops,
        next,
    })
}

// The first word of a text, and what follows the space after it. None if there is no space.
fn word(text: &[u8]) -> Option<(&[u8], &[u8])>
    ensures some { IfSome result (λ r. parts 32 text.now ≡ r.0.now ∷ parts 32 r.1.now) }
    ensures none { IfNone result (parts 32 text.now ≡ text.now ∷ []) }
{
    match cut(text, b' ') {
        (word, Some(rest)) => Some((word, rest)),
        (_, None) => None,
    }
}

// The seven words of an entry line, after `  entry `.
#[derive(Clone, Copy)]
struct Words<'a> {
    dest: &'a [u8],
    dsn: &'a [u8],
    known: &'a [u8],
    flag: &'a [u8],
    hops: &'a [u8],
    next: &'a [u8],
    list: &'a [u8],
}

impl<'a> Words<'a> {
    // The words of a text that has exactly seven.
    fn of(text: &'a [u8]) -> Option<Words<'a>>
        ensures some { IfSome result (λ w. parts 32 text.now ≡ words_in w) }
        ensures none { IfNone result (printed.entry_in (parts 32 text.now) ≡ None) }
    {
        let (dest, rest) = word(text)?;
        let (dsn, rest) = word(rest)?;
        let (known, rest) = word(rest)?;
        let (flag, rest) = word(rest)?;
        let (hops, rest) = word(rest)?;
        let (next, list) = word(rest)?;
        match cut(list, b' ') {
            (list, None) => Some(Words {
                dest,
                dsn,
                known,
                flag,
                hops,
                next,
                list,
            }),
            (_, Some(_)) => None,
        }
    }
}

/// Reads what follows `  entry `: a destination and its entry. None for any other text.
#[tactic(auto, unfolding(crate::specs::Printed::entry_in))]
pub fn parse_entry(text: &[u8]) -> Option<(u32, Row)>
    ensures { result ≡ printed.entry_in (parts 32 text.now) }
{
    let words = Words::of(text)?;
    if !is_list(words.list) {
        return None;
    }
    let dest = address(words.dest)?;
    let row = row_of(words.dsn, words.known, words.flag, words.hops, words.next)?;
    Some((dest, row))
}
