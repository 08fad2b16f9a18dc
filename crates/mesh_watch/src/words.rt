//! The words of a command line.
ghost use Rattle.std.specs.Prelude.{◌≡◌, map};
ghost use Rattle.mesh_watch.specs.Words.{variant_by, asked_with, with_changes, of_one, of_two, of_three, asked_of};

use mesh_base::Variant;
use mesh_blocks::Below;
use mesh_run::variant_named;

/// What the words of a command line ask for: a variant of the protocol, and what is to be written
/// below an event.
#[derive(Clone, Copy)]
pub struct Asked {
    pub variant: Variant,
    pub below: Below,
}

// The variant of `--variant NAME`.
fn variant_by(option: &str, name: &str) -> Option<Variant>
    ensures { result ≡ variant_by option.now name.now }
{
    if option == "--variant" {
        variant_named(name)
    } else {
        None
    }
}

// What is asked for with a variant, if there is one, and with what is to be written below an event.
fn asked_with(below: Below, variant: Option<Variant>) -> Option<Asked>
    ensures { result ≡ asked_with below variant }
{
    match variant {
        Some(variant) => Some(Asked { variant, below }),
        None => None,
    }
}

// What is asked for with a variant if the last word is `--changes`.
fn with_changes(word: &str, variant: Option<Variant>) -> Option<Asked>
    ensures { result ≡ with_changes word.now variant }
{
    if word == "--changes" {
        asked_with(Below::Changes, variant)
    } else {
        None
    }
}

// `--changes`
fn of_one(word: &str) -> Option<Asked>
    ensures { result ≡ of_one word.now }
{
    with_changes(word, Some(Variant::Base))
}

// `--variant NAME`
fn of_two(option: &str, name: &str) -> Option<Asked>
    ensures { result ≡ of_two option.now name.now }
{
    asked_with(Below::Blocks, variant_by(option, name))
}

// `--variant NAME --changes`
fn of_three(option: &str, name: &str, word: &str) -> Option<Asked>
    ensures { result ≡ of_three option.now name.now word.now }
{
    with_changes(word, variant_by(option, name))
}

/// What the words ask for: with no word, blocks and the protocol as AWN has it; with
/// `--variant NAME`, that variant of it; and with a last word `--changes`, the changes in place of
/// blocks. None exactly where the words are in none of the program's forms. The names are `base`,
/// `number`, `reply` and `error`.
pub fn asked_of(words: &[&str]) -> Option<Asked>
    ensures { result ≡ asked_of (map (λ w. w.now) words.now) }
{
    match words {
        [] => asked_with(Below::Blocks, Some(Variant::Base)),
        [word] => of_one(word),
        [option, name] => of_two(option, name),
        [option, name, word] => of_three(option, name, word),
        _ => None,
    }
}
