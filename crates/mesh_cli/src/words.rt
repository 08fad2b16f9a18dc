//! The words of a command line.
ghost use Rattle.std.specs.Prelude.{◌≡◌, ◌≤◌, map, IfSome};
ghost use Rattle.mesh_cli.specs.Words.{number_in, plan_of, of_one, of_two, run_of, of_four, of_six, command_of, IsPlan, IsAllowed};

use mesh_base::{MOST_NODES, Variant, number_up_to};
use mesh_make::MOST_STEPS;
use mesh_run::variant_named;

/// What a schedule is made from.
#[derive(Clone, Copy, PartialEq, Eq)]
pub struct Plan {
    pub seed: u64,
    /// The number of nodes, from 2 to 200.
    pub nodes: u32,
    /// The number of chosen lines, from 1 to 100000.
    pub steps: u32,
}

/// What the words ask for.
#[derive(Clone, Copy, PartialEq, Eq)]
pub enum Command {
    /// To run the schedule that is read, with all nodes running this variant of the protocol, and
    /// to write its text, or only the last line.
    Run { variant: Variant, quiet: bool },
    /// To write the made schedule.
    Make(Plan),
    /// To run the made schedule, with all nodes running this variant of the protocol, and to write
    /// the last line of its text.
    Trial { variant: Variant, plan: Plan },
}

// The number that a word denotes, if it is from `least` to `most`.
#[tactic(auto, unfolding(crate::specs::Words::number_in))]
fn number_in(word: &str, least: u64, most: u64) -> Option<u64>
    ensures value { result ≡ number_in least most word.now }
    ensures least { IfSome result (λ n. least ≤ n) }
    ensures most { IfSome result (λ n. n ≤ most) }
{
    let n = number_up_to(word.as_bytes(), most)?;
    if least <= n { Some(n) } else { None }
}

#[tactic(auto, unfolding(crate::specs::Words::plan_of))]
fn plan_of(seed: &str, nodes: &str, steps: &str) -> Option<Plan>
    ensures value { result ≡ plan_of seed.now nodes.now steps.now }
    ensures plan { IfSome result IsPlan }
{
    let seed = number_in(seed, 0, u64::MAX)?;
    let nodes = number_in(nodes, 2, MOST_NODES as u64)?;
    let steps = number_in(steps, 1, u64::from(MOST_STEPS))?;
    Some(Plan {
        seed,
        nodes: nodes as u32,
        steps: steps as u32,
    })
}

// `run`
fn of_one(word: &str) -> Option<Command>
    ensures value { result ≡ of_one word.now }
    ensures allowed { IfSome result IsAllowed }
{
    if word == "run" {
        Some(Command::Run {
            variant: Variant::Base,
            quiet: false,
        })
    } else {
        None
    }
}

// `run --quiet`
fn of_two(word: &str, option: &str) -> Option<Command>
    ensures value { result ≡ of_two word.now option.now }
    ensures allowed { IfSome result IsAllowed }
{
    if word == "run" && option == "--quiet" {
        Some(Command::Run {
            variant: Variant::Base,
            quiet: true,
        })
    } else {
        None
    }
}

// `run --variant NAME`
fn run_of(quiet: bool, word: &str, option: &str, name: &str) -> Option<Command>
    ensures value { result ≡ run_of quiet word.now option.now name.now }
    ensures allowed { IfSome result IsAllowed }
{
    if word == "run" && option == "--variant" {
        let variant = variant_named(name)?;
        Some(Command::Run { variant, quiet })
    } else {
        None
    }
}

// `run --variant NAME --quiet`, and `make` and `trial` with their numbers
fn of_four(word: &str, second: &str, third: &str, last: &str) -> Option<Command>
    ensures value { result ≡ of_four word.now second.now third.now last.now }
    ensures allowed { IfSome result IsAllowed }
{
    if last == "--quiet" {
        return run_of(true, word, second, third);
    }
    let plan = plan_of(second, third, last)?;
    if word == "make" {
        Some(Command::Make(plan))
    } else if word == "trial" {
        Some(Command::Trial {
            variant: Variant::Base,
            plan,
        })
    } else {
        None
    }
}

// `trial --variant NAME` with its numbers
fn of_six(
    word: &str,
    option: &str,
    name: &str,
    seed: &str,
    nodes: &str,
    steps: &str,
) -> Option<Command>
    ensures value { result ≡ of_six word.now option.now name.now seed.now nodes.now steps.now }
    ensures allowed { IfSome result IsAllowed }
{
    if word == "trial" && option == "--variant" {
        let variant = variant_named(name)?;
        let plan = plan_of(seed, nodes, steps)?;
        Some(Command::Trial { variant, plan })
    } else {
        None
    }
}

/// What the words ask for, if they are in one of the program's forms: `run` or
/// `trial SEED NODES STEPS`, each with or without `--variant NAME` after its first word; either
/// form of `run` with `--quiet` at its end; or `make SEED NODES STEPS`. The names are `base`,
/// `number`, `reply` and `error`.
pub fn command_of(words: &[&str]) -> Option<Command>
    ensures value { result ≡ command_of (map (λ w. w.now) words.now) }
    ensures allowed { IfSome result IsAllowed }
{
    match words {
        [word] => of_one(word),
        [word, option] => of_two(word, option),
        [word, option, name] => run_of(false, word, option, name),
        [word, second, third, last] => of_four(word, second, third, last),
        [word, option, name, seed, nodes, steps] => of_six(word, option, name, seed, nodes, steps),
        _ => None,
    }
}
