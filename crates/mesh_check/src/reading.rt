//! The tables that the text of a source shows.
ghost use Rattle.std.specs.Prelude.{◌≡◌, ◌+◌, ◌<◌, ◌≤◌, ◌^◌, ℕ, ⊤, IfSome, IfOk, IsErrOf, None};
ghost use Rattle.std.specs.Io.KnownBytes.{IsAtEnd};
ghost use Rattle.mesh_io.specs.NextLines.{text_limits};
ghost use Rattle.mesh_tables.specs.Printed.{nothing_read};
ghost use Rattle.mesh_shell.specs.Outputs.{IsOutputFrom};
ghost use Rattle.mesh_shell.specs.Causes.{HasFaultCause};
ghost use Rattle.mesh_check.specs.Says.{most_lines, reading, reading_of};

use mesh_io::{Limits, Sink, Source, SureSink, TEXT_CAPACITY};
use mesh_shell::{Fault, Limit, Script, run};
use mesh_tables::{PrintedTables, ReadError};
use std::alloc::Global;
use std::marker::Model;

/// What the lines of a text came to.
#[derive(Clone, Copy, PartialEq, Eq)]
pub enum ReadVerdict {
    /// All lines were read.
    Read,
    /// This line, counted from 1, is refused.
    BadLine { line: u64 },
}

/// The tables that the lines read so far show: a script that writes nothing.
#[derive(Drop)]
pub struct Checking {
    pub tables: PrintedTables,
}

impl Model for Checking {
    ghost use Rattle.mesh_tables.specs.Printed.{Reading};

    ghost Value = { Reading };

    ghost view = { λ c. c.tables };
}

impl Script for Checking {
    ghost use Rattle.mesh_io.specs.declared.limits.TheConstants.{LONGEST_TEXT_LINE};
    ghost use Rattle.std.proofs.Common.{arith};
    ghost use Rattle.mesh_check.specs.declared.reading.ReadVerdict.TheVariants as verdicts;

    type Verdict = ReadVerdict;

    ghost fold = { reading };

    ghost leads = { λ before size after. after.lines ≤ before.lines + size };

    ghost has_room = { λ r size. r.lines + size ≤ most_lines };

    ghost longest = { LONGEST_TEXT_LINE };

    ghost is_sound = { λ r. ⊤ };

    ghost is_final = { λ v. v ≡ verdicts.Read };

    fn begin<O: Sink>(&mut self, _: &mut O) -> Result<(), Fault> {
        Ok(())
    }

    #[inline]
    fn line<O: Sink>(&mut self, line: &[u8], _: &mut O) -> Result<Option<ReadVerdict>, Fault> {
        let number = self.tables.lines() + 1;
        match self.tables.read(line) {
            Ok(()) => Ok(None),
            Err(ReadError::BadLine) => Ok(Some(ReadVerdict::BadLine { line: number })),
            Err(ReadError::NoMemory) => Err(Fault::NoMemory),
        }
    }

    fn past<O: Sink>(&mut self, _: Limit, _: &mut O) -> Result<ReadVerdict, Fault> {
        Ok(ReadVerdict::BadLine {
            line: self.tables.lines() + 1,
        })
    }

    fn end<O: Sink>(&mut self, _: &mut O) -> Result<ReadVerdict, Fault> {
        match self.tables.close() {
            Ok(()) => Ok(ReadVerdict::Read),
            Err(_) => Err(Fault::NoMemory),
        }
    }

    ghost stays = { λ m n. Prim.omega arith };

    ghost joins = { λ a b c m n p q. Prim.omega arith };

    ghost leaves = { λ a b m n p q. Prim.omega arith };
}

/// Reads all lines of a source, up to its end or the first that is refused.
pub fn read_tables<I: Source>(
    alloc: Global,
    checking: &mut Checking,
    input: &mut I,
) -> Result<ReadVerdict, Fault>
    requires { checking.old ≡ nothing_read }
    ensures known { IfSome (I.left input.old) (λ text.
        IsOutputFrom reading text_limits nothing_read text (I.left input.new) None None result) }
    ensures after { IfOk result (λ v. v ≡ ReadVerdict.Read → IfSome (I.left input.old)
        (λ text. checking.new ≡ (reading_of text).after)) }
    ensures end { IfOk result (λ v. v ≡ ReadVerdict.Read → IsAtEnd (I.left input.new)) }
    ensures read { HasFaultCause Fault.ReadFault (I.faults input.old) (I.faults input.new) result }
    ensures sure { ¬ IsErrOf result Fault.WriteFault }
{
    let mut nowhere = SureSink::new();
    let limits = Limits::of_text();
    run::<Checking, I, SureSink, TEXT_CAPACITY>(alloc, checking, limits, input, &mut nowhere)
}
