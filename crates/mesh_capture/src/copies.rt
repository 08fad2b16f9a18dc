//! What the lines of a printed text say about copies, line by line.
ghost use Rattle.std.specs.Prelude.{◌≡◌, ◌≤◌, ◌+◌, ◌<◌, true, false, Some, None, OnOk, IfOk, IfErr, IfSome, IsErrOf, is_some};
ghost use Rattle.std.specs.Map.{remove_entry};
ghost use Rattle.std.specs.Ordering.{nat_cmp};
ghost use Rattle.std.specs.BTreeMap.{insert_entry, is_at};
ghost use Rattle.mesh_base.specs.Parts.{parts, rest_parts};
ghost use Rattle.mesh_lines.specs.Belows as belows;
ghost use Rattle.mesh_lines.specs.Packets.{IsShort, IsShortBelow};
ghost use Rattle.mesh_capture.specs.Copies as copies;
ghost use Rattle.mesh_capture.specs.Kept.{IsShortCopy, AreShort, most_lines};

use crate::frame::Frame;
use crate::packets::{ReadError, cast_packet, packet_of, shared};
use mesh_lines::{
    Below, Field, SharedPacket, address, are, copy_words, cut, ends, event_by, four, is, is_idle,
    is_link, is_of_cast, is_of_loss, is_of_node, is_of_route, is_taken, number, other_by,
};
use std::alloc::Global;
use std::collections::BTreeMap;
use std::marker::Model;

/// A copy in flight.
#[derive(Drop)]
pub struct FlyingCopy {
    /// The address of the copy's sender.
    pub from: u32,
    /// The address of the copy's receiver.
    pub to: u32,
    /// The packet of the copy's cast.
    pub packet: SharedPacket,
}

/// What is known from the lines read so far. It takes memory for the copies in flight and for their
/// packets: one packet for each cast, which the copies of the cast and their doubles share, and one
/// for each copy that a `flight` line is the first to show.
#[derive(Drop)]
pub struct Copies {
    alloc: Global,
    events: u64,
    below: Below,
    flying: BTreeMap<u64, FlyingCopy>,
    lines: u64,
}

impl Model for Copies {
    ghost use Rattle.std.specs.Prelude.{◌≤◌};
    ghost use Rattle.mesh_capture.specs.Copies.{Reading};
    ghost use Rattle.mesh_lines.specs.Packets.{IsShortBelow};
    ghost use Rattle.mesh_capture.specs.Kept.{AreShort, most_lines};

    ghost Value = { Reading };

    ghost view = { λ c. record {
      events = c.events;
      below = c.below;
      flying = c.flying.entries;
      lines = c.lines;
    } };

    ghost invariant = { λ c. (c.events ≤ c.lines) × (c.lines ≤ most_lines)
        × IsShortBelow c.below × AreShort c.flying.entries };
}

// What is read of a line that says nothing about copies: it is refused if it isn't of its form.
fn checked(of_form: bool) -> Result<Option<Frame>, ReadError>
    ensures done { IfOk result (λ frame. (of_form ≡ true) × (frame ≡ None)) }
    ensures bad { IfErr result (λ e. of_form ≡ false) }
{
    if of_form {
        Ok(None)
    } else {
        Err(ReadError::BadLine)
    }
}

// A double of a copy in flight, which has the same receiver.
#[tactic(auto, using(crate::proofs::Kept::short_found))]
fn doubled_copy(
    flying: &BTreeMap<u64, FlyingCopy>,
    id: u64,
    to: u32,
) -> Result<FlyingCopy, ReadError>
    requires { AreShort flying.now.entries }
    ensures done { IfOk result (λ copy.
        copies.doubled_copy (copies.copy_in flying.now.entries id) to ≡ Some copy) }
    ensures bad { IsErrOf result ReadError.BadLine →
        copies.doubled_copy (copies.copy_in flying.now.entries id) to ≡ None }
    ensures short { IfOk result IsShortCopy }
{
    let Some(copy) = flying.get(&id) else {
        return Err(ReadError::BadLine);
    };
    if copy.to != to {
        return Err(ReadError::BadLine);
    }
    Ok(FlyingCopy {
        from: copy.from,
        to,
        packet: shared(&copy.packet)?,
    })
}

// A copy joins the copies in flight. It is refused if one of this number is in flight.
#[tactic(auto, using(crate::proofs::Kept::short_insert))]
fn put_copy(
    flying: &mut BTreeMap<u64, FlyingCopy>,
    id: u64,
    copy: FlyingCopy,
) -> Result<(), ReadError>
    requires all { AreShort flying.old.entries }
    requires one { IsShortCopy copy }
    ensures put { OnOk result (flying.new.entries
        ≡ insert_entry nat_cmp flying.old.entries id copy) }
    ensures apart { OnOk result (copies.copy_in flying.old.entries id ≡ None) }
    ensures there { IsErrOf result ReadError.BadLine
        → is_some (copies.copy_in flying.old.entries id) ≡ true }
    ensures short { AreShort flying.new.entries }
{
    match flying.insert(id, copy) {
        Ok(None) => Ok(()),
        Ok(Some(_)) => Err(ReadError::BadLine),
        Err(_) => Err(ReadError::NoMemory),
    }
}

// A copy that a line below `flight` shows, and its number.
fn shown_copy(alloc: Global, words: Option<&[u8]>) -> Result<(u64, FlyingCopy), ReadError>
    ensures done { IfOk result (λ shown.
        copies.shown_copy (rest_parts 32 words.entry) ≡ Some shown) }
    ensures bad { IsErrOf result ReadError.BadLine →
        copies.shown_copy (rest_parts 32 words.entry) ≡ None }
    ensures short { IfOk result (λ shown. IsShortCopy shown.1) }
{
    let Some((id, from, to, hex)) = four(words, b' ') else {
        return Err(ReadError::BadLine);
    };
    let (Some(id), Some(from), Some(to)) = (number(id), address(from), address(to)) else {
        return Err(ReadError::BadLine);
    };
    let packet = packet_of(alloc, hex)?;
    Ok((id, FlyingCopy { from, to, packet }))
}

// Whether two copies have the same sender, receiver and packet.
fn is_same_copy(a: &FlyingCopy, b: &FlyingCopy) -> bool
    ensures { result ≡ copies.is_same_copy a.now b.now }
{
    a.from == b.from && a.to == b.to && is(a.packet.as_slice(), b.packet.as_slice())
}

// Takes a copy from the copies in flight, if one of this number is there.
fn take_copy(flying: &mut BTreeMap<u64, FlyingCopy>, id: u64) -> Option<FlyingCopy>
    requires { AreShort flying.old.entries }
    ensures value { result ≡ copies.copy_in flying.old.entries id }
    ensures entries { flying.new.entries
        ≡ remove_entry (is_at (nat_cmp id)) flying.old.entries }
    ensures short { AreShort flying.new.entries }
    ensures packet { IfSome result IsShortCopy }
{
    flying.remove(&id)
}

impl Copies {
    /// Nothing is read yet, and no memory taken.
    pub fn new(alloc: Global) -> Copies
        ensures { result ≡ copies.nothing_read }
    {
        Copies {
            alloc,
            events: 0,
            below: Below::Nothing,
            flying: BTreeMap::new(alloc),
            lines: 0,
        }
    }

    /// How many lines were read.
    pub fn lines(&self) -> u64
        ensures { result ≡ self.now.lines }
    {
        self.lines
    }

    // Counts one more event, with its effects below it.
    fn count(&mut self, below: Below)
        requires few { self.old.events < self.old.lines }
        requires short { IsShortBelow below }
        ensures { copies.no_frame self.new ≡ copies.event_outcome self.old below }
    {
        self.events += 1;
        self.below = below;
    }

    // Reads the words of `sent`: a packet is cast.
    fn sent(&mut self, words: Option<&[u8]>) -> Result<(), ReadError>
        ensures done { OnOk result
            (copies.after_sent self.old self.old.below (rest_parts 32 words.entry)
            ≡ Some (copies.no_frame self.new)) }
        ensures bad { IsErrOf result ReadError.BadLine →
            copies.after_sent self.old self.old.below (rest_parts 32 words.entry) ≡ None }
        ensures lines { OnOk result (self.new.lines ≡ self.old.lines) }
    {
        match self.below {
            Below::Casts(node, None) => {
                self.below = Below::Casts(node, Some(cast_packet(self.alloc, words)?));
                Ok(())
            }
            _ => Err(ReadError::BadLine),
        }
    }

    // A new copy for this receiver: of what was cast, or of the copy that is doubled.
    fn new_copy(&self, to: u32) -> Result<FlyingCopy, ReadError>
        ensures done { IfOk result (λ copy.
            copies.new_copy self.now.flying self.now.below to ≡ Some copy) }
        ensures bad { IsErrOf result ReadError.BadLine →
            copies.new_copy self.now.flying self.now.below to ≡ None }
        ensures short { IfOk result IsShortCopy }
    {
        match &self.below {
            Below::Casts(node, Some(packet)) => Ok(FlyingCopy {
                from: *node,
                to,
                packet: shared(packet)?,
            }),
            Below::Doubles(id) => doubled_copy(&self.flying, *id, to),
            _ => Err(ReadError::BadLine),
        }
    }

    // Reads the words of `copy` below an event: a new copy joins the copies in flight.
    fn copy(&mut self, words: Option<&[u8]>) -> Result<(), ReadError>
        ensures done { OnOk result
            (copies.after_copy self.old self.old.below
            (belows.copy_words (rest_parts 32 words.entry)) ≡ Some (copies.no_frame self.new)) }
        ensures bad { IsErrOf result ReadError.BadLine →
            copies.after_copy self.old self.old.below
            (belows.copy_words (rest_parts 32 words.entry)) ≡ None }
        ensures lines { OnOk result (self.new.lines ≡ self.old.lines) }
    {
        let Some((id, to)) = copy_words(words) else {
            return Err(ReadError::BadLine);
        };
        let copy = self.new_copy(to)?;
        put_copy(&mut self.flying, id, copy)
    }

    // Reads the words of `copy` below `flight`: the copy joins the copies in flight, unless one of
    // its number is there already, which then has to be the same.
    fn shown(&mut self, words: Option<&[u8]>) -> Result<(), ReadError>
        ensures done { OnOk result
            (copies.after_shown self.old (copies.shown_copy (rest_parts 32 words.entry))
            ≡ Some (copies.no_frame self.new)) }
        ensures bad { IsErrOf result ReadError.BadLine →
            copies.after_shown self.old (copies.shown_copy (rest_parts 32 words.entry)) ≡ None }
        ensures lines { OnOk result (self.new.lines ≡ self.old.lines) }
    {
        let (id, copy) = shown_copy(self.alloc, words)?;
        match self.flying.get(&id) {
            Some(known) if is_same_copy(&copy, known) => Ok(()),
            Some(_) => Err(ReadError::BadLine),
            None => put_copy(&mut self.flying, id, copy),
        }
    }

    // Reads the words of `heard` or `lost`: the copy of this number is no longer in flight.
    fn end(&mut self, lost: bool, id: u64, words: Option<&[u8]>) -> Result<Frame, ReadError>
        ensures done { IfOk result (λ frame.
            copies.after_end self.old lost id (rest_parts 32 words.entry)
            ≡ Some (copies.with_frame self.new frame)) }
        ensures bad { IsErrOf result ReadError.BadLine →
            copies.after_end self.old lost id (rest_parts 32 words.entry) ≡ None }
        ensures lines { OnOk result (self.new.lines ≡ self.old.lines) }
        ensures soon { IfOk result (λ frame. frame.event ≤ most_lines) }
        ensures short { IfOk result (λ frame. IsShort frame.packet) }
    {
        let Some((from, to)) = ends(words) else {
            return Err(ReadError::BadLine);
        };
        let Some(copy) = take_copy(&mut self.flying, id) else {
            return Err(ReadError::BadLine);
        };
        if copy.from != from || copy.to != to {
            return Err(ReadError::BadLine);
        }
        let FlyingCopy { from, to, packet } = copy;
        Ok(Frame {
            event: self.events,
            from,
            to,
            lost,
            packet,
        })
    }

    // Reads the words of a link that was made or cut as a node came to its place: one more event.
    fn link(&mut self, words: Option<&[u8]>) -> Result<(), ReadError>
        requires few { self.old.events < self.old.lines }
        ensures done { OnOk result
            (copies.after_link self.old (rest_parts 32 words.entry)
            ≡ Some (copies.no_frame self.new)) }
        ensures bad { IsErrOf result ReadError.BadLine →
            copies.after_link self.old (rest_parts 32 words.entry) ≡ None }
        ensures lines { OnOk result (self.new.lines ≡ self.old.lines) }
    {
        if !are(&[Field::Address, Field::Address], words) {
            return Err(ReadError::BadLine);
        }
        self.count(Below::Place);
        Ok(())
    }

    // Reads an effect, without the two spaces before it.
    fn effect(&mut self, text: &[u8]) -> Result<Option<Frame>, ReadError>
        requires few { self.old.events < self.old.lines }
        ensures done { IfOk result (λ frame. copies.effect self.old (parts 32 text.now)
            ≡ Some (record { now = self.new; frame = frame })) }
        ensures bad { IsErrOf result ReadError.BadLine →
            copies.effect self.old (parts 32 text.now) ≡ None }
        ensures lines { OnOk result (self.new.lines ≡ self.old.lines) }
        ensures soon { IfOk result (λ frame. IfSome frame (λ f. f.event ≤ most_lines)) }
        ensures short { IfOk result (λ frame. IfSome frame (λ f. IsShort f.packet)) }
    {
        let (word, words) = cut(text, b' ');
        match self.below {
            Below::Casts(_, _) | Below::Doubles(_) if is(word, b"copy") => {
                self.copy(words)?;
                Ok(None)
            }
            Below::Casts(_, _) if is(word, b"took") => checked(is_taken(words)),
            Below::Casts(_, _) if is(word, b"sent") => {
                self.sent(words)?;
                Ok(None)
            }
            Below::Delivers(id) if is(word, b"heard") => Ok(Some(self.end(false, id, words)?)),
            Below::Loses(id) if is(word, b"lost") => Ok(Some(self.end(true, id, words)?)),
            Below::Place if is_link(word) => {
                self.link(words)?;
                Ok(None)
            }
            Below::Casts(_, _) => checked(is_of_cast(word, words)),
            Below::Loses(_) => checked(is_of_loss(word, words)),
            Below::Node => checked(is_of_node(word, words)),
            Below::Route => checked(is_of_route(word, words)),
            Below::Flight if is(word, b"copy") => {
                self.shown(words)?;
                Ok(None)
            }
            Below::Nothing | Below::Flight => Err(ReadError::BadLine),
            Below::Link | Below::Delivers(_) | Below::Doubles(_) | Below::Place => {
                checked(is_idle(word, words))
            }
        }
    }

    // Reads a line without two spaces before it.
    fn outer(&mut self, line: &[u8]) -> Result<(), ReadError>
        requires few { self.old.events < self.old.lines }
        ensures done { OnOk result (copies.outer self.old (parts 32 line.now)
            ≡ Some (copies.no_frame self.new)) }
        ensures bad { IsErrOf result ReadError.BadLine →
            copies.outer self.old (parts 32 line.now) ≡ None }
        ensures lines { OnOk result (self.new.lines ≡ self.old.lines) }
    {
        let (word, words) = cut(line, b' ');
        if let Some(below) = event_by(word, words) {
            self.count(below);
            return Ok(());
        }
        match other_by(word, words) {
            Some(below) => self.below = below,
            None => return Err(ReadError::BadLine),
        }
        Ok(())
    }

    /// Reads one more line, and returns the copy that it ends, if it ends one. After an error
    /// nothing is known of the copies.
    #[tactic(auto, unfolding(crate::specs::Copies::after_line))]
    pub fn read(&mut self, line: &[u8]) -> Result<Option<Frame>, ReadError>
        requires { self.old.lines < most_lines }
        ensures done { IfOk result (λ frame. copies.after_line self.old line.now
            ≡ Some (record { now = self.new; frame = frame })) }
        ensures bad { IsErrOf result ReadError.BadLine →
            copies.after_line self.old line.now ≡ None }
        ensures lines { OnOk result (self.new.lines ≡ self.old.lines + 1) }
        ensures soon { IfOk result (λ frame. IfSome frame (λ f. f.event ≤ most_lines)) }
        ensures short { IfOk result (λ frame. IfSome frame (λ f. IsShort f.packet)) }
    {
        self.lines += 1;
        if line.starts_with(b"  ") {
            return self.effect(&line[2..]);
        }
        self.outer(line)?;
        Ok(None)
    }
}
