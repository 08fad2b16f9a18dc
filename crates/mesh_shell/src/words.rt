//! The words of a command line, as the programs take them.
ghost use Rattle.std.specs.Prelude.{◌≡◌, drop, map, IfOk, IfErr};
ghost use Rattle.std.specs.String.{string_bytes};

use std::alloc::Global;
use std::rt::Env;
use std::{env, io};
use thiserror::Error;

/// Why there are no words to take.
#[derive(Clone, Copy, Debug, PartialEq, Eq, Error)]
pub enum WordsError {
    /// A word isn't text, so the words are in none of the program's forms.
    #[error("a word is no text")]
    NotText,
    /// Memory ran out.
    #[error("no memory for the words")]
    NoMemory,
}

/// The words of the command line, with the program's name.
pub fn words_of<R: Env + AllocGlobal>(rt: &R) -> Result<Vec<String>, WordsError> {
    let given = match env::args(rt) {
        Ok(given) => given,
        Err(e) if e.kind() == io::ErrorKind::OutOfMemory => return Err(WordsError::NoMemory),
        Err(_) => return Err(WordsError::NotText),
    };
    let mut words = Vec::new(rt.alloc());
    for word in given {
        if words.push(word).is_err() {
            return Err(WordsError::NoMemory);
        }
    }
    Ok(words)
}

/// The words as string slices, the form in which the top calls take them.
pub fn texts_of(alloc: Global, words: &[String]) -> Result<Vec<&str>, WordsError>
    ensures same { IfOk result (λ all. map (λ t. t.now) all.items ≡ map string_bytes words.now) }
    ensures fault { IfErr result (λ e. e ≡ WordsError.NoMemory) }
{
    match words.iter().map(|word| word.as_str()).collect(alloc) {
        Ok(texts) => Ok(texts),
        Err(_) => Err(WordsError::NoMemory),
    }
}

/// The words behind the program's name, which stands first, as string slices.
pub fn texts_behind_name(alloc: Global, words: &[String]) -> Result<Vec<&str>, WordsError>
    ensures same { IfOk result (λ all.
        map (λ t. t.now) all.items ≡ map string_bytes (drop 1 words.now)) }
    ensures fault { IfErr result (λ e. e ≡ WordsError.NoMemory) }
{
    let (_, rest) = words.split_at(words.len().min(1));
    texts_of(alloc, rest)
}
