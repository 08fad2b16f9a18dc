//! A made schedule as a source of bytes.
ghost use Rattle.std.specs.Prelude.{◌≡◌, ◌≤◌, ◌<◌, ◌+◌, ◌++◌, [], Ok, IfOk, Some, length, min, take, drop};
ghost use Rattle.std.specs.Io.{ReadsAtMost};
ghost use Rattle.std.specs.Io.KnownBytes.{ReadConsumes};
ghost use Rattle.mesh_io.specs.Cause.{HasCause};
ghost use Rattle.mesh_base.specs.declared.limits.TheConstants.{MOST_NODES};
ghost use Rattle.mesh_make.specs.declared.sizes.TheConstants.{MOST_STEPS};
ghost use Rattle.mesh_make.specs.Made.{made_schedule};
ghost use Rattle.mesh_make.specs.Making.{IsMaking, still_to_come, unread_text};

use crate::maker::Maker;
use mesh_base::LineBuf;
use mesh_io::{Failed, Source};
use std::marker::Model;

/// Gives the schedule that a seed makes. It holds a few of its lines at a time, and never fails.
#[derive(Drop)]
pub struct MadeSource {
    maker: Maker,
    text: LineBuf,
    line: LineBuf,
    at: usize,
}

impl Model for MadeSource {
    ghost use Rattle.std.specs.Prelude.{List, ℕ, ◌≤◌, length};
    ghost use Rattle.mesh_make.specs.Making.{IsMaking, unread_text};

    ghost Value = { List ℕ };

    ghost view = { λ s. unread_text s.maker s.line.items s.at };

    ghost invariant = { λ s. (s.at ≤ length s.line.items) × IsMaking s.maker };
}

// Makes the next lines if the present ones have been read to their end. Returns how many bytes of
// the lines in `line` are read. The text of a datum is made in `text`.
fn refill(maker: &mut Maker, text: &mut LineBuf, line: &mut LineBuf, at: usize) -> usize
    requires making { IsMaking maker.old }
    requires within { at ≤ length line.old.items }
    ensures same { unread_text maker.new line.new.items result
        ≡ unread_text maker.old line.old.items at }
    ensures within { result ≤ length line.new.items }
    ensures making { IsMaking maker.new }
    ensures end { result ≡ length line.new.items → still_to_come maker.new ≡ [] }
{
    if at < line.len() || maker.is_done() {
        return at;
    }
    maker.next_lines(text, line);
    0
}

// Copies the first bytes, as many as there is room for, to the start of the buffer, and returns how
// many.
fn copy_front(bytes: &[u8], buf: &mut [u8]) -> usize
    ensures count { result ≡ min (length bytes.now) (length buf.old) }
    ensures copied { buf.new ≡ take result bytes.now ++ drop result buf.old }
{
    let n = bytes.len().min(buf.len());
    buf[..n].copy_from_slice(&bytes[..n]);
    n
}

impl MadeSource {
    /// A source of the whole schedule.
    pub fn new(seed: u64, nodes: u32, steps: u32) -> MadeSource
        requires two { 2 ≤ nodes }
        requires nodes_most { nodes ≤ MOST_NODES }
        requires one { 1 ≤ steps }
        requires steps_most { steps ≤ MOST_STEPS }
        ensures { result ≡ made_schedule seed nodes steps }
    {
        MadeSource {
            maker: Maker::new(seed, nodes, steps),
            text: LineBuf::new(),
            line: LineBuf::new(),
            at: 0,
        }
    }

    // Gives a prefix of what is left, at most the rest of the lines that are made.
    fn give_piece(&mut self, buf: &mut [u8]) -> usize
        ensures room { result ≤ length buf.old }
        ensures within { result ≤ length self.old }
        ensures left { self.new ≡ drop result self.old }
        ensures buffer { buf.new ≡ take result self.old ++ drop result buf.old }
        ensures end { result ≡ 0 → 0 < length buf.old → self.old ≡ [] }
    {
        self.at = refill(&mut self.maker, &mut self.text, &mut self.line, self.at);
        let n = copy_front(&self.line.as_slice()[self.at..], buf);
        self.at += n;
        n
    }
}

impl Source for MadeSource {
    ghost left = { λ s. Some s };

    ghost faults = { λ s. 0 };

    fn take(&mut self, buf: &mut [u8]) -> Result<usize, Failed>
        ensures bound { ReadsAtMost result buf.new }
        ensures bytes { ReadConsumes (Some self.old) (Some self.new) result buf.new }
        ensures cause { HasCause 0 0 result }
        ensures answer { result ≡ Ok (min (length self.old) (length buf.old)) }
        ensures buffer { IfOk result (λ n. buf.new ≡ take n self.old ++ drop n buf.old) }
    {
        let mut given = 0;
        while given < buf.len() {
            let n = self.give_piece(&mut buf[given..]);
            if n == 0 {
                break;
            }
            given += n;
        }
        Ok(given)
    }
}
