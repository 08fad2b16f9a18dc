//! A source cut into lines.
ghost use Rattle.std.specs.Prelude.{◌≡◌, ◌≤◌, ◌<◌, ◌+◌, [], Ok, Err, true, false, length, take, drop, IfSome, OnOk, OnErr, IsErrOf};
ghost use Rattle.std.specs.Io.KnownBytes.{IsAtEnd, Keeps};
ghost use Rattle.mesh_io.specs.Cause.{HasCause, HasReadCause};
ghost use Rattle.mesh_io.specs.NextLines.{known_after};
ghost use Rattle.mesh_io.specs.Decisions.{decision_of};
ghost use Rattle.mesh_io.specs.declared.read_buffer.TheConstants.{ASKED};

use crate::decision::{Decision, decide};
use crate::limits::{LONGEST_TEXT_LINE, Limits};
use crate::line_error::LineError;
use crate::read_buffer::{ASKED, ReadBuffer};
use crate::source::{Failed, Source};
use mesh_base::LONGEST_LINE;

/// Room for the longest line of a schedule and one read, in bytes.
pub const SCHEDULE_CAPACITY: usize = LONGEST_LINE + ASKED;

/// Room for the longest line of a printed text and one read, in bytes.
pub const TEXT_CAPACITY: usize = LONGEST_TEXT_LINE + ASKED;

/// Cuts what a source gives into lines within these limits. The line that was found last is at the
/// start of the buffer, with its LF, and after it are the bytes that were read and not yet given.
/// The buffer has room for the longest line, without its LF, and one read.
#[derive(Drop)]
pub struct Cutter<'s, S: Source, const CAPACITY: usize> {
    source: &'s mut S,
    buffer: ReadBuffer<CAPACITY>,
    most: Limits,
    // The length of the line that was found last: without its LF, and with it.
    len: usize,
    size: usize,
    // How many bytes the lines found so far have, each LF included.
    given: usize,
    ended: bool,
    // What the bytes after the line decide. It is made once, when they are read or the line is
    // given.
    decision: Decision,
    ghost whole: { size ≤ length buffer },
    ghost within: { len ≤ size },
    ghost few: { given ≤ most.input },
    ghost room: { most.line + ASKED ≤ CAPACITY },
    ghost decided: { decision ≡ decision_of most given ended (drop size buffer) },
    ghost at_end: { known_after ended (S.left source.now) ≡ [] },
}

impl<'s, S: Source, const CAPACITY: usize> Cutter<'s, S, CAPACITY> {
    ghost use Rattle.mesh_io.specs.Cutting.{HasRoom, source_in, limits_in, given_in, has_ended_in, line_in, pending_in, ahead_in, faults_in, decides_in, reads_to_come, Tells, Refuses, IsCounted, HasNoLf, refusal_in};

    /// A cutter of what is still to come from the source.
    pub fn new(source: &'s mut S, most: Limits) -> Cutter<'s, S, CAPACITY>
        requires { HasRoom most CAPACITY }
        ensures same { (source_in result).ghost_name ≡ source.entry.ghost_name }
        ensures source { (source_in result).now ≡ source.old }
        ensures most { limits_in result ≡ most }
        ensures pending { pending_in result ≡ [] }
        ensures given { given_in result ≡ 0 }
        ensures ended { has_ended_in result ≡ false }
    {
        Cutter {
            source,
            buffer: ReadBuffer::new(),
            most,
            len: 0,
            size: 0,
            given: 0,
            ended: false,
            decision: Decision::Open,
        }
    }

    /// The source. What was read from it and not given is lost.
    pub fn give_back(self) -> &'s mut S
        ensures same { result.ghost_name ≡ (source_in self.entry).ghost_name }
        ensures source { result.now ≡ (source_in self.entry).now }
    {
        let Cutter {
            source,
            buffer: _,
            most: _,
            len: _,
            size: _,
            given: _,
            ended: _,
            decision: _,
        } = self;
        source
    }

    /// The line that was found last, without its LF.
    pub fn line(&self) -> &[u8]
        ensures { result.now ≡ line_in self.now }
    {
        &self.buffer.bytes()[..self.len]
    }

    /// Whether the next answer needs no read.
    pub fn is_decided(&self) -> bool
        ensures { result ≡ decides_in self.now }
    {
        !matches!(self.decision, Decision::Open)
    }

    // Reads more bytes after those that are pending. Few lines need it.
    #[cold]
    fn read(&mut self) -> Result<(), Failed>
        requires { decides_in self.old ≡ false }
        ensures same { self.new.source.ghost_name ≡ self.old.source.ghost_name }
        ensures most { self.new.most ≡ self.old.most }
        ensures given { self.new.given ≡ self.old.given }
        ensures ahead { Keeps (ahead_in S.left self.old) (ahead_in S.left self.new) }
        ensures fewer { OnOk result (reads_to_come self.new < reads_to_come self.old) }
        ensures pending { OnErr result (pending_in self.new ≡ pending_in self.old) }
        ensures cause { HasCause (faults_in S.faults self.old)
            (faults_in S.faults self.new) result }
    {
        self.buffer.drop_front(self.size);
        self.len = 0;
        self.size = 0;
        let count = self.buffer.read(self.source)?;
        self.ended = count == 0;
        let pending = self.buffer.bytes();
        decide(
            self.most,
            self.given,
            self.ended,
            pending,
            &mut self.decision,
        );
        Ok(())
    }

    // Gives the first `len` pending bytes as a line, which takes `size` of them.
    fn give(&mut self, len: usize, size: usize)
        requires within { len ≤ size }
        requires whole { size ≤ length (pending_in self.old) }
        requires few { self.old.given + size ≤ self.old.most.input }
        ensures same { self.new.source ≡ self.old.source }
        ensures most { self.new.most ≡ self.old.most }
        ensures ended { self.new.ended ≡ self.old.ended }
        ensures line { line_in self.new ≡ take len (pending_in self.old) }
        ensures pending { pending_in self.new ≡ drop size (pending_in self.old) }
        ensures given { self.new.given ≡ self.old.given + size }
    {
        self.buffer.drop_front(self.size);
        self.len = len;
        self.size = size;
        self.given += size;
        let pending = &self.buffer.bytes()[size..];
        decide(
            self.most,
            self.given,
            self.ended,
            pending,
            &mut self.decision,
        );
    }

    /// Finds the next line, if there is one: false only if the input has ended.
    pub fn advance(&mut self) -> Result<bool, LineError>
        ensures same { (source_in self.new).ghost_name ≡ (source_in self.old).ghost_name }
        ensures most { limits_in self.new ≡ limits_in self.old }
        ensures known { IfSome (ahead_in S.left self.old) (λ bytes.
            Tells (limits_in self.old) (given_in self.old) bytes result
            (line_in self.new) (given_in self.new) (ahead_in S.left self.new)) }
        ensures unread { decides_in self.old ≡ true →
            (source_in self.new).now ≡ (source_in self.old).now }
        ensures stays { IfSome (refusal_in self.old) (λ refusal.
            (result ≡ Err refusal) × (self.new ≡ self.old)) }
        ensures kept { Refuses result (refusal_in self.new) }
        ensures unasked { decides_in self.old ≡ true → ¬ IsErrOf result LineError.ReadFault }
        ensures short { result ≡ Ok true → length (line_in self.new) ≤ (limits_in self.old).line }
        ensures counted { result ≡ Ok true → IsCounted (length (line_in self.new))
            (given_in self.old) (given_in self.new) (has_ended_in self.new) }
        ensures grows { result ≡ Ok true → given_in self.old < given_in self.new }
        ensures few { given_in self.new ≤ (limits_in self.new).input }
        ensures end { result ≡ Ok false → IsAtEnd (S.left (source_in self.new).now) }
        ensures pending { IsErrOf result LineError.ReadFault → HasNoLf (pending_in self.new) }
        ensures cause { HasReadCause (faults_in S.faults self.old)
            (faults_in S.faults self.new) result }
    {
        'reads: loop {
            match self.decision {
                Decision::Open => {}
                Decision::End => return Ok(false),
                Decision::Line { len, size } => {
                    self.give(len, size);
                    return Ok(true);
                }
                Decision::TooLong => return Err(LineError::TooLong),
                Decision::TooMuch => return Err(LineError::TooMuch),
            }
            if self.read().is_err() {
                return Err(LineError::ReadFault);
            }
        }
    }
}

impl<'s, S: Source, const CAPACITY: usize> Cutter<'s, S, CAPACITY> {
    ghost use Rattle.std.specs.Borrow.{sem};
    ghost use Rattle.std.specs.Io.BufRead.{Rests};
    ghost use mir.Syntax.{named};
    ghost use Rattle.mesh_io.specs.contracts.cutter.Cutter.{the_row};
    ghost use Rattle.mesh_io.specs.Cutting.{limits_in, NextTells};

    /// The next line without its LF, in one call: None at the end of the input. A caller whose
    /// contract says what it does with a line is better served by `advance` and `line`: the line
    /// lent here is the reader's own, so nothing is known of the reader until it is given back.
    pub fn next(&mut self) -> Result<Option<&[u8]>, LineError>
        ensures* after { sem 𝓛 (Rests
            (the_row (record { mir = named 0; lft = [] }) S.row CAPACITY.row S.Source) self.entry
            (λ now. NextTells (limits_in self.old) S.left S.faults self.old result now)) }
    {
        match self.advance() {
            Ok(true) => Ok(Some(self.line())),
            Ok(false) => Ok(None),
            Err(error) => Err(error),
        }
    }
}
