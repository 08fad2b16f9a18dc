//! The main of all programs that read lines.
ghost use Rattle.std.specs.Prelude.{◌≡◌, ◌↔◌, ◌⊎◌, ℕ, List, drop, map, IfOk, IfErr};
ghost use Rattle.std.specs.String.{string_bytes};

use crate::words::{WordsError, texts_behind_name, words_of};
use mesh_io::{Sink, Source, StdSink, StdSource};
use std::alloc::Global;
use std::io;
use std::process::ExitCode;

/// A program that reads lines: what `start` calls, over the standard streams, and how it ends.
pub trait Program {
    /// What a call comes to. Words that can't be taken have a status too.
    type Status: From<WordsError> + Copy;

    /// These words are in none of the program's forms.
    ghost is_other: { List (List ℕ) → Type 0 };

    /// The status says that the words are in none of the program's forms.
    ghost is_usage: { Self.Status → Type 0 };

    /// The status with which the process ends.
    ghost code_of: { Self.Status → ℕ };

    /// Does what the words ask for. They are those of the command line without the program's name.
    fn answer<I: Source, O: Sink, E: Sink>(
        alloc: Global,
        words: &[&str],
        input: &mut I,
        out: &mut O,
        errors: &mut E,
    ) -> Self::Status
        ensures usage_exactly_for_other_words { is_usage result
            ↔ is_other (map (λ w. w.now) words.now) }
        ensures untouched_by_other_words { is_usage result
            → (input.new ≡ input.old) × (out.new ≡ out.old) × (errors.new ≡ errors.old) };

    /// The status with which the process ends.
    fn code(status: Self::Status) -> u8
        ensures { result ≡ code_of status };
}

// Answers for the words that were given, the program's name before them.
fn answer_to<P: Program, I: Source, O: Sink, E: Sink>(
    alloc: Global,
    given: Result<Vec<String>, WordsError>,
    input: &mut I,
    out: &mut O,
    errors: &mut E,
) -> P::Status
    ensures usage_exactly_for_other_words { IfOk given (λ all.
        (P.is_usage result ↔ P.is_other (map string_bytes (drop 1 all.items)))
        ⊎ P.Status.from_gives WordsError.NoMemory result) }
    ensures no_words { IfErr given (λ e. P.Status.from_gives e result) }
    ensures untouched_without_words { IfErr given (λ _.
        (input.new ≡ input.old) × (out.new ≡ out.old) × (errors.new ≡ errors.old)) }
{
    let words = match given {
        Ok(words) => words,
        Err(e) => return P::Status::from(e),
    };
    match texts_behind_name(alloc, &words) {
        Ok(texts) => P::answer(alloc, &texts, input, out, errors),
        Err(e) => P::Status::from(e),
    }
}

/// Answers for the words of the command line, over the standard streams. Returns the status with
/// which the process ends.
pub fn start<P: Program>(rt: &HostRuntime) -> ExitCode {
    let given = words_of(rt);
    let mut input = StdSource::new(rt.stdin());
    let mut out = StdSink::new(io::writer(rt));
    let mut errors = StdSink::new(rt.stderr());
    let status = answer_to::<P, _, _, _>(rt.alloc(), given, &mut input, &mut out, &mut errors);
    ExitCode::from(P::code(status))
}
