//! The lines of an input, one by one, within the limits of a schedule or of a printed text.
ghost use Rattle.std.specs.Prelude.{◌≡◌, ◌≤◌, ◌<◌, [], Ok, Err, true, false, length, IfSome, IsErrOf};
ghost use Rattle.std.specs.Io.KnownBytes.{IsAtEnd};
ghost use Rattle.mesh_io.specs.Cause.{HasReadCause};
ghost use Rattle.mesh_io.specs.NextLines.{limits_of};

use crate::cutter::{Cutter, SCHEDULE_CAPACITY, TEXT_CAPACITY};
use crate::limits::{LONGEST_TEXT, LONGEST_TEXT_LINE, Limits};
use crate::line_error::LineError;
use crate::source::Source;
use mesh_base::{LONGEST_INPUT, LONGEST_LINE};

/// Reads a source line by line: a line has at most `LINE` bytes, and the input at most `INPUT`. The
/// first byte that goes past a limit decides which refusal is reported; if it goes past both, the
/// input's limit counts.
///
/// The source is asked for 4096 bytes at a time, and only if the bytes that it gave don't decide
/// what comes next. No memory is taken: a line is lent from the reader, which has room for the
/// longest line and one read and is best made where it stays.
#[derive(Drop)]
pub struct LinesWithin<
    's,
    S: Source,
    const LINE: usize,
    const INPUT: usize,
    const CAPACITY: usize,
> {
    cutter: Cutter<'s, S, CAPACITY>,
    ghost most: { cutter.most ≡ limits_of LINE INPUT },
}

/// The lines of a schedule: at most 600 bytes each, of at most 16777216 bytes.
pub type Lines<'s, S> = LinesWithin<'s, S, LONGEST_LINE, LONGEST_INPUT, SCHEDULE_CAPACITY>;

/// The lines of a printed text: at most 8192 bytes each, of at most 268435456 bytes.
pub type LongLines<'s, S> = LinesWithin<'s, S, LONGEST_TEXT_LINE, LONGEST_TEXT, TEXT_CAPACITY>;

impl<'s, S: Source> Lines<'s, S> {
    ghost use Rattle.mesh_io.specs.Reading.{source_of, pending_of, given_of, has_ended};

    /// A reader of what is still to come from the source.
    pub fn new(source: &'s mut S) -> Lines<'s, S>
        ensures same { (source_of result).ghost_name ≡ source.entry.ghost_name }
        ensures source { (source_of result).now ≡ source.old }
        ensures pending { pending_of result ≡ [] }
        ensures given { given_of result ≡ 0 }
        ensures ended { has_ended result ≡ false }
    {
        LinesWithin {
            cutter: Cutter::new(source, Limits::of_schedule()),
        }
    }
}

impl<'s, S: Source> LongLines<'s, S> {
    ghost use Rattle.mesh_io.specs.Reading.{source_of, pending_of, given_of, has_ended};

    /// A reader of what is still to come from the source.
    pub fn new(source: &'s mut S) -> LongLines<'s, S>
        ensures same { (source_of result).ghost_name ≡ source.entry.ghost_name }
        ensures source { (source_of result).now ≡ source.old }
        ensures pending { pending_of result ≡ [] }
        ensures given { given_of result ≡ 0 }
        ensures ended { has_ended result ≡ false }
    {
        LinesWithin {
            cutter: Cutter::new(source, Limits::of_text()),
        }
    }
}

impl<'s, S: Source, const LINE: usize, const INPUT: usize, const CAPACITY: usize> LinesWithin<
    's,
    S,
    LINE,
    INPUT,
    CAPACITY,
> {
    ghost use Rattle.mesh_io.specs.Reading.{source_of, pending_of, line_of, given_of, has_ended, is_decided_at, refusal_of, ahead_of, faults_of};
    ghost use Rattle.mesh_io.specs.Cutting.{Tells, Refuses, IsCounted, HasNoLf};

    /// The source. What was read from it and not given is lost.
    pub fn give_back(self) -> &'s mut S
        ensures same { result.ghost_name ≡ (source_of self.entry).ghost_name }
        ensures source { result.now ≡ (source_of self.entry).now }
    {
        let LinesWithin { cutter } = self;
        cutter.give_back()
    }

    /// Whether the next answer needs no read.
    pub fn is_decided(&self) -> bool
        ensures { result ≡ is_decided_at self.now }
    {
        self.cutter.is_decided()
    }

    /// The line that was found last, without its LF.
    pub fn line(&self) -> &[u8]
        ensures { result.now ≡ line_of self.now }
    {
        self.cutter.line()
    }

    /// Finds the next line: false only if the input has ended. After a refusal by a limit each
    /// later call returns the same error; after a `ReadFault` the next call goes on, and no line
    /// that was read whole was held back. If no read is needed, none fails.
    pub fn advance(&mut self) -> Result<bool, LineError>
        ensures same { (source_of self.new).ghost_name ≡ (source_of self.old).ghost_name }
        ensures known { IfSome (ahead_of S.left self.old) (λ bytes.
            Tells (limits_of LINE INPUT) (given_of self.old) bytes result
            (line_of self.new) (given_of self.new) (ahead_of S.left self.new)) }
        ensures unread { is_decided_at self.old ≡ true →
            (source_of self.new).now ≡ (source_of self.old).now }
        ensures stays { IfSome (refusal_of self.old) (λ refusal.
            (result ≡ Err refusal) × (self.new ≡ self.old)) }
        ensures kept { Refuses result (refusal_of self.new) }
        ensures unasked { is_decided_at self.old ≡ true → ¬ IsErrOf result LineError.ReadFault }
        ensures short { result ≡ Ok true → length (line_of self.new) ≤ LINE }
        ensures counted { result ≡ Ok true → IsCounted (length (line_of self.new))
            (given_of self.old) (given_of self.new) (has_ended self.new) }
        ensures grows { result ≡ Ok true → given_of self.old < given_of self.new }
        ensures few { given_of self.new ≤ INPUT }
        ensures end { result ≡ Ok false → IsAtEnd (S.left (source_of self.new).now) }
        ensures pending { IsErrOf result LineError.ReadFault → HasNoLf (pending_of self.new) }
        ensures cause { HasReadCause (faults_of S.faults self.old)
            (faults_of S.faults self.new) result }
    {
        self.cutter.advance()
    }
}

impl<'s, S: Source, const LINE: usize, const INPUT: usize, const CAPACITY: usize> LinesWithin<
    's,
    S,
    LINE,
    INPUT,
    CAPACITY,
> {
    ghost use Rattle.std.specs.Borrow.{sem};
    ghost use Rattle.std.specs.Io.BufRead.{Rests};
    ghost use mir.Syntax.{named};
    ghost use Rattle.mesh_io.specs.contracts.lines.LinesWithin.{the_row};
    ghost use Rattle.mesh_io.specs.Reading.{cutter_of};
    ghost use Rattle.mesh_io.specs.Cutting.{NextTells};

    /// The next line without its LF, in one call: None at the end of the input. A caller whose
    /// contract says what it does with a line is better served by `advance` and `line`: the line
    /// lent here is the reader's own, so nothing is known of the reader until it is given back.
    pub fn next(&mut self) -> Result<Option<&[u8]>, LineError>
        ensures* after { sem 𝓛 (Rests (the_row (record { mir = named 0; lft = [] }) S.row
            LINE.row INPUT.row CAPACITY.row S.Source) self.entry
            (λ now. NextTells (limits_of LINE INPUT) S.left S.faults
            (cutter_of self.old) result (cutter_of now))) }
    {
        match self.advance() {
            Ok(true) => Ok(Some(self.line())),
            Ok(false) => Ok(None),
            Err(error) => Err(error),
        }
    }
}
